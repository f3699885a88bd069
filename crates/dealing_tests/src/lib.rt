// The tests of a dealing's input, in document 01's order.
#![tactic(auto)]

mod input;
mod tests;

pub use input::{Input, Rooms, check};
