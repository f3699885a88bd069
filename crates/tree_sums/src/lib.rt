// Leaves of the last levels of a tree added to elements in lent words, in both fields, and words zeroed before. Tables and round keys
// are lent by the caller.
#![tactic(auto)]

mod range;
mod sums;
mod zero;

pub use range::Range;
pub use sums::{add_both, add_bottom, add_element, add_leaf};
pub use zero::zero_words;
