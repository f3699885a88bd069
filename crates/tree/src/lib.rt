// Trees of blocks with two, four or eight children a node: definitions and laws. Their code stands in crates `tree_walk`,
// `tree_sums` and `tree_fill`.
#![tactic(auto)]

mod punctured;

pub use punctured::Punctured;
