// The walk from a root to a leaf.
ghost use Rattle.std.specs.Prelude.{◌≡◌, ◌+◌, ◌*◌, ◌/◌, ◌^◌, ◌≤◌, ◌<◌, length};
ghost use Rattle.tree.specs.Child.{child_by};
ghost use Rattle.tree.specs.Inner.Keys.{keys_for};
ghost use Rattle.tree.specs.Expanded.{walk, walked};
ghost use Rattle.tree.specs.Inner.Branches.{IsBranch, IsPunctured};
ghost use Rattle.tree_walk.specs.Inner.Levels.{IsLevel, children_put, twin_put, before_put, level_passed};
ghost use Rattle.tree.specs.Inner.Nodes.{node_of};

use crate::columns::put_node;
use crate::down::digit;
use crate::node::TreeCipher;
use crate::powers::power;
use field::Block;
use tree::Punctured;

// Writes so many pairs of children of s, from child `from` on, from a place on.
fn put_children(cipher: TreeCipher, s: Block, from: usize, pairs: usize, at: usize, out: &mut [u8])
    requires { (from + 2 * pairs ≤ 8) × (at + 32 * pairs ≤ length out.old) }
    ensures { out.new ≡ children_put (child_by (keys_for cipher.entry.keys.now)) (node_of s) from (2 * pairs) at out.old }
{
    for pair in 0..pairs {
        let both = cipher.children(from + 2 * pair, s);
        put_node(out, at + 32 * pair, both.one);
        put_node(out, at + 32 * pair + 16, both.other);
    }
}

// The child of s that a digit names; writes the other of its pair from a place on.
fn put_twin(cipher: TreeCipher, s: Block, digit: usize, at: usize, out: &mut [u8]) -> Block
    requires { (digit < 8) × (at + 16 ≤ length out.old) }
    ensures { walk (node_of result) out.new ≡ twin_put (child_by (keys_for cipher.entry.keys.now)) (node_of s) digit at out.old }
{
    let both = cipher.children(2 * (digit / 2), s);
    if digit % 2 == 0 {
        put_node(out, at, both.other);
        both.one
    } else {
        put_node(out, at, both.one);
        both.other
    }
}

// The child of s that a digit names; writes the children before its pair and the other of its pair from a place on.
fn put_before(cipher: TreeCipher, s: Block, digit: usize, at: usize, out: &mut [u8]) -> Block
    requires { (digit < 8) × (at + 32 * (digit / 2) + 16 ≤ length out.old) }
    ensures { walk (node_of result) out.new ≡ before_put (child_by (keys_for cipher.entry.keys.now)) (node_of s) digit at out.old }
{
    put_children(cipher, s, 0, digit / 2, at, out);
    put_twin(cipher, s, digit, at + 32 * (digit / 2), out)
}

// How many pairs of children stand after the pair of the one that a digit names.
fn pairs_after(branch_bits: usize, digit: usize) -> usize
    requires { IsBranch branch_bits × (digit < 2 ^ branch_bits) }
    ensures { 2 ^ branch_bits ≡ 2 * (digit / 2) + (2 + 2 * result) }
{
    let pairs = power(branch_bits - 1);
    pairs - digit / 2 - 1
}

// The child of s that a digit names; writes the others, in rising order, from a place on.
fn pass_level(
    cipher: TreeCipher,
    branch_bits: usize,
    s: Block,
    digit: usize,
    at: usize,
    out: &mut [u8],
) -> Block
    requires { IsLevel branch_bits digit at (length out.old) }
    ensures { walk (node_of result) out.new
        ≡ level_passed (2 ^ branch_bits) (child_by (keys_for cipher.entry.keys.now)) (node_of s) digit at out.old }
{
    let pair = digit / 2;
    let next = put_before(cipher, s, digit, at, out);
    let after = pairs_after(branch_bits, digit);
    put_children(cipher, s, 2 * pair + 2, after, at + 32 * pair + 16, out);
    next
}

// The leaf below a node at the position; writes the siblings beside the path to it, top first, from their place on. The place is carried:
// by the level it is `tree.at + 16 * (count - 1) * (tree.levels - 1 - level)`.
fn walk_from(cipher: TreeCipher, root: Block, tree: Punctured, out: &mut [u8]) -> Block
    requires { IsPunctured tree (length out.old) }
    ensures { walk (node_of result) out.new
        ≡ walked (2 ^ tree.branch_bits) (child_by (keys_for cipher.entry.keys.now)) (node_of root) tree out.old }
{
    let branch_bits = tree.branch_bits;
    let position = tree.position;
    let count = power(branch_bits);
    let mut node = root;
    let mut at = tree.at;
    for level in (0..tree.levels).rev() {
        let child = digit(branch_bits, level, position);
        node = pass_level(cipher, branch_bits, node, child, at, out);
        at += 16 * (count - 1);
    }
    node
}

// The leaf at the position; writes the siblings beside the path to it, top first, from their place on.
pub fn walk(cipher: TreeCipher, root: [[u8; 4]; 4], tree: Punctured, out: &mut [u8]) -> [[u8; 4]; 4]
    requires { IsPunctured tree (length out.old) }
    ensures { walk result out.new ≡ walked (2 ^ tree.branch_bits) (child_by (keys_for cipher.entry.keys.now)) root tree out.old }
{
    let leaf = walk_from(cipher, Block::of_columns(root), tree, out);
    leaf.columns()
}
