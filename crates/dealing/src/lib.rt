// No code: the dealing in definitions and laws. The tests of its input stand in crate `dealing_tests`, its call in `dealing_call`.
#![tactic(auto)]
