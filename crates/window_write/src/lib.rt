// A window of a record's outputs, written under the record's code key if its words pass their test.
#![tactic(auto)]

mod used;
mod writing;

pub use writing::write_rows;
