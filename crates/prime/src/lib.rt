// Field 2: `Prime`, a word below 2^61 − 1, its constants, constructors and operations, and elements as signed numbers. Operations take
// any word; sums, differences and products are elements, and `add_product` gives a word that is yet to be reduced.
#![tactic(auto)]

mod prime;
mod signed;

pub use prime::Prime;
