// The algebra of the expander, in definitions and laws alone: a commutative ring, a commutative group that it scales,
// sums, accumulation, rows of the code and its matrix, codings of elements in words, and the correlation for any of them.
#![tactic(auto)]
