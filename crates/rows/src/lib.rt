// The sums of a row of the code in definitions and laws, the walk of a row for any sums, and what a row gives. The sums of either end in
// either field stand in crates `rows_noise` and `rows_scalar`.
#![tactic(auto)]

mod row;
mod walked;

pub use row::{Pair, Single};
pub use walked::{Vectors, walk};
