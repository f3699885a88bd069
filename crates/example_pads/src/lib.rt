// Computed examples on the pads of two dealings: pads at both ends, messages, triples, and a circuit run to its end by both; no code.
#![tactic(auto)]
