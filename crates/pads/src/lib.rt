// The pads of field 1, and the messages and triples made of them, in definitions and laws: the pad rule, every call, the choice law,
// that the message wanted is opened and that triples match. Blocks in bytes. The calls' code stands in crates `pads_calls`,
// `pads_messages` and `pads_triples`.
#![tactic(auto)]

mod bytes;

pub use bytes::{block_at, put_block};
