// The market: the circuit that clears it, and that a run of it finds what clears; no code.
#![tactic(auto)]
