// A tree punctured at a position, as its siblings lie in bytes.

// The bits that name a child, how many levels the tree has, the position, and the place where the bytes of its siblings begin.
#[derive(Clone, Copy)]
pub struct Punctured {
    pub branch_bits: usize,
    pub levels: usize,
    pub position: usize,
    pub at: usize,
}
