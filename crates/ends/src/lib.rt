// Both ends' calls in definitions and laws: offline writes an end's accumulated vectors, online a window of its outputs, and the expansion
// for the bench a window without those vectors, which is the online call on them. Their code stands in crates `ends_calls`,
// `ends_bench_leaves` and `ends_bench`.
#![tactic(auto)]
