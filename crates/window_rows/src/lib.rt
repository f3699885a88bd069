// The rows of a window, summed, tested and written in one walk. The noise end gets a word of u beside each element; the scalar end, whose
// elements are those of w, gets no u.
#![tactic(auto)]

mod walk;

pub use walk::walk_rows;
