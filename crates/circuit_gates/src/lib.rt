// What a gate makes of the shares of its wires at one end: a share in a step, a byte in a round. The calls' code stands in crates
// `circuit_step` and `circuit_round`.
#![tactic(auto)]

mod bytes;
mod shares;

pub use bytes::{Opening, WAITS, byte_after, input_byte, share_of};
pub use shares::{flip, give_and, is_role};
