// Runs of a circuit in steps and in rounds: progress of one end, what both ends have together, and that both ways give the same. No
// code: definitions and proofs.
#![tactic(auto)]
