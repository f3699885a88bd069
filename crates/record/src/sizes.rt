// Sizes that follow from those of a head.
ghost use Rattle.std.specs.Prelude.{◌≡◌, ◌^◌, ◌≤◌};
ghost use Rattle.record.specs.Content.{sibling_count};

// The number of leaves of a tree. `power` of `tree_walk`, which rests on no record, says the same of any count of bits below 64.
pub fn leaves(depth: usize) -> usize
    requires { depth ≤ 16 }
    ensures { result ≡ 2 ^ depth }
{
    1usize << depth
}

// The siblings of a tree of a depth with 2^g children a node.
pub fn sibling_count(depth: usize, branch_bits: usize) -> usize
    requires { (depth ≤ 16) × (1 ≤ branch_bits) × (branch_bits ≤ 3) }
    ensures { (result ≡ sibling_count depth branch_bits) × (result ≤ 112) }
{
    depth / branch_bits * (leaves(branch_bits) - 1)
}
