// Accumulation in place.
#![tactic(auto)]

mod accumulation;

pub use accumulation::{accumulate_elements, accumulate_noise};
