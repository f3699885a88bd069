// What document 02 says beyond each call alone, over the pages; no code.
#![tactic(auto)]
