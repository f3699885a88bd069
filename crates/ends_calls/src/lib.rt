// Both ends' calls: offline writes an end's accumulated vectors, online a window of its outputs. A refused call writes nothing. Their
// definitions and laws stand in crate `ends`. The two ends have functions alike, since C calls each end by promises of its own; one
// `write_accumulated` for both took 30 lines to save 25 (docs/TRIALS.md). Refusals are
// answered where they are met and not by `?`: the answer is C's struct, and a function of a `Result` between would have the call's contract
// a second time.
#![tactic(auto)]

mod accepted;
pub mod noise;
mod noise_trees;
pub mod scalar;
mod scalar_trees;
mod trees;

pub use accepted::{NoiseRecord, ScalarRecord};
pub use trees::Trees;
