// What document 01's calls do together, said of workings (`page_claims` promises it over the page); the statements on what accumulated
// buffers tell (document 02, 12), and on messages, triples and circuits on pads of dealings (document 02, 1, 6 and 9); no code.
#![tactic(auto)]
