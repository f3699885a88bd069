// Document 01's statements over its page, with their proofs; no code.
#![tactic(auto)]
