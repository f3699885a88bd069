// Two layers of each field, computed. It has no code.
#![tactic(auto)]
