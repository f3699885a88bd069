// A node's children in a tree of blocks, the walk to a leaf with the siblings beside it, and ways down to a leaf alone. Tables and round
// keys are lent by the caller, as one cipher.
#![tactic(auto)]

mod columns;
mod down;
mod leaf;
mod node;
mod powers;

pub use columns::{columns_at, node_at};
pub use down::{Start, from_sibling, walk_both, walk_to};
pub use leaf::walk;
pub use node::{TreeCipher, child_keys};
pub use powers::power;
