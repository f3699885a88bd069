// Computed examples on the pads of the dealings of `example_levels`: pad calls in windows that begin at different indices, triples
// gathered from two calls an end, and a circuit of three ANDs run by both ends in steps and in rounds; no code.
#![tactic(auto)]
