// What a finished run of a circuit shows an end: the values of the outputs opened to it and nothing else of the far inputs. No code:
// definitions and proofs.
#![tactic(auto)]
