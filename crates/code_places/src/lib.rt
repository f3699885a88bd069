// The code under round keys: the terms of a row and their places, and the test of the words that rows use. Definitions and laws stand in
// crate `code`.
#![tactic(auto)]

mod row;
mod used;

pub use row::{Code, Term, place_of};
pub use used::still_below;
