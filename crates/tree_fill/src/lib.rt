// Trees expanded into lent words: the leaves of a whole tree and of a punctured one, added in both fields. Tables and round keys are
// lent by the caller.
#![tactic(auto)]

mod fill;
mod range;

pub use fill::{add_leaves, add_punctured};
