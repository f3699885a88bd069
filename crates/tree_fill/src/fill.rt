// Leaves added into words, in either field: a tree by the two halves of its words, each from the middle on.
// Cipher and field are lent apart: walks take a cipher and no field, `add_leaf` and `add_element` a field and no cipher.
ghost use Rattle.std.specs.Prelude.{[], ◌∷◌, ◌≡◌, ◌*◌, ◌^◌, ◌<◌, length};
ghost use Rattle.field.specs.Kind.{kind_of, element_words};
ghost use Rattle.tree.specs.Child.{child_by};
ghost use Rattle.tree.specs.Inner.Keys.{keys_for};
ghost use Rattle.tree.specs.Expanded.{leaves_added, punctured_added};
ghost use Rattle.tree.specs.Inner.Nodes.{node_of};
ghost use Rattle.tree.specs.Inner.Branches.{IsBranch, IsPunctured};
ghost use Rattle.tree_sums.specs.Inner.Ranges.{child_under, size_of, IsRange, range_added};
ghost use Rattle.tree_fill.specs.Inner.Ranges.{IsRun, IsPath, run_added, path_added};

use crate::range::{Path, all_children, half_from, parted};
use field::{Block, Element};
use tree::Punctured;
use tree_sums::{Range, add_both, add_bottom, add_element, add_leaf};
use tree_walk::{TreeCipher, node_at, power};

// Adds the leaves below a range of the children of s to the elements of acc.
fn add_range(cipher: TreeCipher, field: usize, range: Range, s: Block, acc: &mut [u64])
    requires { IsRange range × (length acc.old ≡ size_of range * element_words field) }
    ensures { acc.new ≡ range_added field (child_under cipher.entry.keys.now) range (node_of s) acc.old }
{
    let branch_bits = range.branch_bits;
    let levels = range.levels;
    let bits = range.bits;
    let from = range.from;
    if levels == 0 {
        add_leaf(field, s, acc);
    } else if levels == 1 {
        add_bottom(cipher, field, bits, from, s, acc);
    } else if bits == 1 {
        let both = cipher.children(from, s);
        if levels == 3 && branch_bits == 1 {
            add_both(cipher, field, both, acc);
            return;
        }
        let all = all_children(branch_bits, levels - 1);
        let (first, second) = acc.split_at_mut(acc.len() / 2);
        add_range(cipher, field, all, both.one, first);
        add_range(cipher, field, all, both.other, second);
    } else {
        let low = half_from(range, from);
        let high = half_from(range, from + power(bits - 1));
        let (first, second) = acc.split_at_mut(acc.len() / 2);
        add_range(cipher, field, low, s, first);
        add_range(cipher, field, high, s, second);
    }
}

// Adds the leaves below a run of siblings, of those whose bytes begin at a place, to the elements of acc. The last arm is that of
// `add_range`: PROMISES.md (13.5, 13.6) names that function's body, and one halving for both would take the recursion as a closure.
fn add_run(cipher: TreeCipher, field: usize, run: Range, at: usize, bytes: &[u8], acc: &mut [u64])
    requires { IsRun run at (length bytes.now) × (length acc.old ≡ size_of run * element_words field) }
    ensures { acc.new ≡ run_added field (child_under cipher.entry.keys.now) run bytes.now at acc.old }
{
    let branch_bits = run.branch_bits;
    let levels = run.levels;
    let bits = run.bits;
    let from = run.from;
    if bits == 0 {
        let sibling = node_at(bytes, at + 16 * from);
        let all = all_children(branch_bits, levels - 1);
        add_range(cipher, field, all, sibling, acc);
    } else {
        let low = half_from(run, from);
        let high = half_from(run, from + power(bits - 1));
        let (first, second) = acc.split_at_mut(acc.len() / 2);
        add_run(cipher, field, low, at, bytes, first);
        add_run(cipher, field, high, at, bytes, second);
    }
}

// Adds the leaves below a range that holds the position of a punctured tree to the elements of acc: the correction at the
// position, the others from the siblings among the bytes.
fn add_path(
    cipher: TreeCipher,
    field: usize,
    path: Path,
    bytes: &[u8],
    correction: Element,
    acc: &mut [u64],
)
    requires { IsPath path (length bytes.now) × (length acc.old ≡ size_of path.range * element_words field) }
    ensures { acc.new ≡ path_added field (child_under cipher.entry.keys.now) path bytes.now (correction.low ∷ correction.high ∷ []) acc.old }
{
    if path.range.levels == 0 {
        add_element(field, correction, acc);
        return;
    }
    let parts = parted(path);
    let (first, second) = acc.split_at_mut(acc.len() / 2);
    if parts.lower {
        add_path(cipher, field, parts.below, bytes, correction, first);
        add_run(cipher, field, parts.beside, path.at, bytes, second);
    } else {
        add_run(cipher, field, parts.beside, path.at, bytes, first);
        add_path(cipher, field, parts.below, bytes, correction, second);
    }
}

// Adds the leaves of the tree below s to the elements of acc.
pub fn add_leaves(
    cipher: TreeCipher,
    field: usize,
    branch_bits: usize,
    levels: usize,
    s: [[u8; 4]; 4],
    acc: &mut [u64],
)
    requires { IsBranch branch_bits × (length acc.old ≡ (2 ^ branch_bits) ^ levels * element_words field) }
    ensures { acc.new ≡ leaves_added (kind_of field) (2 ^ branch_bits) (child_by (keys_for cipher.entry.keys.now)) levels s acc.old }
{
    let all = all_children(branch_bits, levels);
    add_range(cipher, field, all, Block::of_columns(s), acc);
}

// Adds the leaves of a punctured tree to the elements of acc: at its position the correction, the others from the siblings
// among the bytes.
pub fn add_punctured(
    cipher: TreeCipher,
    field: usize,
    tree: Punctured,
    bytes: &[u8],
    correction: Element,
    acc: &mut [u64],
)
    requires { IsPunctured tree (length bytes.now) × (tree.position < (2 ^ tree.branch_bits) ^ tree.levels)
        × (length acc.old ≡ (2 ^ tree.branch_bits) ^ tree.levels * element_words field) }
    ensures { acc.new
        ≡ punctured_added (kind_of field) (2 ^ tree.branch_bits) (child_by (keys_for cipher.entry.keys.now)) tree bytes.now
        ((kind_of field).field.elements.read (correction.low ∷ correction.high ∷ []) 0) acc.old }
{
    let path = Path {
        range: all_children(tree.branch_bits, tree.levels),
        position: tree.position,
        at: tree.at,
    };
    add_path(cipher, field, path, bytes, correction, acc);
}
