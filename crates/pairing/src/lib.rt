// What the pair program finds of two records, and the line that it prints, in definitions and laws. Their code stands in crate `pair_line`.
#![tactic(auto)]

// What is found of two accepted records.
#[derive(Clone, Copy)]
pub enum Finding {
    // A record has more than 1,024 leaves.
    TooLarge,
    // Field, sizes, code key and label are not all equal (document 02, 8).
    Different,
    // The outputs tried, and those where w = Δu + v.
    Checked(usize, usize),
}
