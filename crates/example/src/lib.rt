// Computed examples, by a cipher that looks its bytes up in tables and equals FIPS 197's: FIPS 197's own, the numbers of three small
// dealings, lists of online calls at both ends of two of them, the pad rule, and a list of calls on one stock; no code.
#![tactic(auto)]
