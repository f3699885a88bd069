// The way down to a leaf: from a node, from two nodes under the same children in alternation, and from the sibling that the leaf of a
// punctured tree follows from. The bits of a branch stay a number, and `IsBranch` a clause: `record` has them so before they are tested.
ghost use Rattle.std.specs.Prelude.{◌≡◌, ◌*◌, ◌/◌, ◌%◌, ◌^◌, ◌≤◌, ◌<◌};
ghost use Rattle.tree.specs.Child.{child_by};
ghost use Rattle.tree.specs.Inner.Branches.{IsBranch};
ghost use Rattle.tree.specs.Inner.Keys.{keys_for};
ghost use Rattle.tree.specs.Inner.Nodes.{node_of};
ghost use Rattle.tree.specs.Tree.{leaf_at};
ghost use Rattle.tree_walk.specs.Inner.Ways.{IsWay, IsBeside, FromSibling};

use crate::node::TreeCipher;
use crate::powers::power;
use aes_blocks::Two;
use field::Block;

// The place of a block's bytes, and how many levels are left below it. A place in lent bytes, as the head of `number` says.
#[derive(Clone, Copy)]
pub struct Start {
    pub at: usize,
    pub left: usize,
}

// The child that leaf j lies below, of a node whose children have so many levels below them.
pub fn digit(branch_bits: usize, left: usize, j: usize) -> usize
    requires { IsBranch branch_bits × (left * branch_bits < 64) }
    ensures { (result ≡ (j / (2 ^ branch_bits) ^ left) % 2 ^ branch_bits) × (result < 2 ^ branch_bits) × (result < 8) }
{
    let count = power(branch_bits);
    (j >> (left * branch_bits)) % count
}

// The node above leaf j with `stop` levels below it, from the one with `left` levels below it.
pub fn walk_to(
    cipher: TreeCipher,
    branch_bits: usize,
    left: usize,
    stop: usize,
    s: Block,
    j: usize,
) -> Block
    requires way { IsWay branch_bits left × (stop ≤ left) }
    ensures { leaf_at (2 ^ branch_bits) (child_by (keys_for cipher.entry.keys.now)) stop (node_of result) j
        ≡ leaf_at (2 ^ branch_bits) (child_by (keys_for cipher.entry.keys.now)) left (node_of s) j }
{
    let mut node = s;
    for level in (stop..left).rev() {
        node = cipher.child(digit(branch_bits, level, j), node);
    }
    node
}

// Leaf j below each of two nodes with `left` levels below them: two walks in alternation, as the bench has them (docs/DECISIONS.md), where two
// calls of `walk_to` would encrypt one block after the other.
pub fn walk_both(
    cipher: TreeCipher,
    branch_bits: usize,
    left: usize,
    a: Block,
    b: Block,
    j: usize,
) -> Two<Block>
    requires way { IsWay branch_bits left }
    ensures { (node_of result.one ≡ leaf_at (2 ^ branch_bits) (child_by (keys_for cipher.entry.keys.now)) left (node_of a) j)
        × (node_of result.other ≡ leaf_at (2 ^ branch_bits) (child_by (keys_for cipher.entry.keys.now)) left (node_of b) j) }
{
    let mut nodes = Two { one: a, other: b };
    for level in (0..left).rev() {
        let c = digit(branch_bits, level, j);
        nodes = cipher.child_of_both(c, nodes.one, nodes.other);
    }
    nodes
}

// The sibling that leaf j follows from, of a tree punctured elsewhere whose siblings begin at a place. Recursive: that the paths part is a
// premise, and a loop over the levels would need an answer for after the last, which is never reached. Four of its numbers are a
// `Punctured`'s: the one caller (`start_at` of the bench) has none, and would build one in six lines for a call of one.
pub fn from_sibling(
    branch_bits: usize,
    levels: usize,
    position: usize,
    j: usize,
    at: usize,
) -> Start
    requires { IsBeside branch_bits levels position j at }
    ensures { FromSibling branch_bits levels position j at result }
{
    let left = levels - 1;
    let own = digit(branch_bits, left, position);
    let child = digit(branch_bits, left, j);
    if child < own {
        return Start {
            at: at + 16 * child,
            left,
        };
    }
    if own < child {
        return Start {
            at: at + 16 * (child - 1),
            left,
        };
    }
    let count = power(branch_bits);
    from_sibling(branch_bits, left, position, j, at + 16 * (count - 1))
}
