// What the expansion for the bench needs of a vector: its value at a place, for which a noise record's trees stand in a table and each leaf
// is walked from its root or sibling alone, and such a value added to an output.
#![tactic(auto)]

mod elements;
mod table;
mod trees;
mod values;
mod vector;
mod walk;

pub use elements::add_output;
pub use table::{no_trees, tree_table};
pub use vector::Vector;
