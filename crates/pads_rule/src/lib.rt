// The pad rule, on tables and round keys that the caller lends: a pad, and two in alternation, one step after the other.
#![tactic(auto)]

mod rule;
mod steps;

pub use rule::{PadCipher, pad_keys};
