// No code: the rows of the code in definitions and laws, and the structs that its functions take.
#![tactic(auto)]

// The code's shape: its places N, the terms ℓ of a row, and the strip N / ℓ, which is divided once and not for each term. A vector's length
// does not say N: an element takes one word or two.
#[derive(Clone, Copy)]
pub struct Shape {
    pub places: usize,
    pub terms: usize,
    pub strip: usize,
}

// A window: a first index and a count. No bound is its invariant: `online` and the bench make one of C's numbers before any test.
#[derive(Clone, Copy)]
pub struct Window {
    pub first: usize,
    pub count: usize,
}
