// A row's output at the scalar end in each field, in field 2 with the test of the words that the row uses.
// Each field keeps a function of its own, as in `rows_noise`.
#![tactic(auto)]

mod scalar_binary;
mod scalar_prime;
mod vector;

pub use scalar_binary::scalar_row_binary;
pub use scalar_prime::scalar_row_prime;
