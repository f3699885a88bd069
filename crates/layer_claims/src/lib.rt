// Statements about layers, several dealings added into one, and their proofs. It has no code.
#![tactic(auto)]
