// Consecutive children of a node.

// The 2^bits children from child `from` on of a node that has so many levels below it and 2^branch_bits children. Where no
// level is left it stands for the node itself.
#[derive(Clone, Copy)]
pub struct Range {
    pub branch_bits: usize,
    pub levels: usize,
    pub bits: usize,
    pub from: usize,
}
