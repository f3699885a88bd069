// Reading the noise record and the scalar record with every test, and a second pass over what was accepted. A reader of a part takes the
// record and a place, as those of `record_head` do, which says why.
#![tactic(auto)]

mod element;
mod noise;
mod scalar;

pub use noise::{known_tree, read_noise};
pub use scalar::read_scalar;
