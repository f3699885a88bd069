// Walks to the same leaf in two trees.
ghost use Rattle.std.specs.Prelude.{◌≡◌, ◌^◌};
ghost use Rattle.tree.specs.Child.{child_by};
ghost use Rattle.tree.specs.Inner.Keys.{keys_for};
ghost use Rattle.tree.specs.Inner.Nodes.{node_of};
ghost use Rattle.tree.specs.Tree.{leaf_at};
ghost use Rattle.tree_walk.specs.Inner.Ways.{IsWay};

use aes_blocks::Two;
use field::Block;
use tree_walk::{TreeCipher, walk_both, walk_to};

// How many bits name a child, and how many levels are left below each of two nodes.
#[derive(Clone, Copy)]
pub struct Levels {
    pub branch_bits: usize,
    pub one: usize,
    pub other: usize,
}

// Leaf j below each of two nodes, walked in alternation from where both have the same number of levels left.
pub fn walk_two(cipher: TreeCipher, levels: Levels, a: Block, b: Block, j: usize) -> Two<Block>
    requires { IsWay levels.branch_bits levels.one × IsWay levels.branch_bits levels.other }
    ensures { (node_of result.one ≡ leaf_at (2 ^ levels.branch_bits) (child_by (keys_for cipher.entry.keys.now)) levels.one (node_of a) j)
        × (node_of result.other ≡ leaf_at (2 ^ levels.branch_bits) (child_by (keys_for cipher.entry.keys.now)) levels.other (node_of b) j) }
{
    let g = levels.branch_bits;
    let both = levels.one.min(levels.other);
    let x = walk_to(cipher, g, levels.one, both, a, j);
    let y = walk_to(cipher, g, levels.other, both, b, j);
    walk_both(cipher, g, both, x, y, j)
}
