// What a record's head gives its windows, and the tests of a window by lengths alone.
#![tactic(auto)]

mod head;
mod lengths;

pub use head::{code_key_at, code_keys, shape_of, vector_words};
pub use lengths::check_window;
