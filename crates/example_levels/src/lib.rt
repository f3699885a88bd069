// Computed examples of dealings whose trees have more than one level, so that the order of digits and of siblings shows; no code.
#![tactic(auto)]
