// Whether two heads are those of one dealing, and how many outputs hold.
#![tactic(auto)]

mod heads;
mod held;

pub use heads::same_dealing;
pub use held::count_held;
