// A row's outputs at the noise end in each field, with the test of the words that the row uses.
// Each field keeps a function of its own: what both share is `walk`, and a trait with their first sums, last steps and promises would be
// longer than the two.
#![tactic(auto)]

mod noise_binary;
mod noise_prime;
mod vectors;

pub use noise_binary::noise_row_binary;
pub use noise_prime::noise_row_prime;
