// The reading of a record's head, which both ends share, and of its sizes and fields one by one. Each reader takes the record and a place,
// and gives a value with the place after it, as `Parsed` of `number` says it: what a contract equates is a function of both, and a reader
// that moves would say beside each value where it then stands.
#![tactic(auto)]

mod head;

pub use head::{read_head, skip};
