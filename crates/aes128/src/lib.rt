// FIPS 197 for a key of 128 bits: its key expansion and cipher in definitions and laws, and the key expansion's code. The cipher's code
// stands in crate `aes_blocks`.
#![tactic(auto)]

mod key;

pub use key::schedule;
