// Elements of leaves added into words, in either field: one element, those of the last level's children, and those below two nodes.
// Cipher and field are lent apart: walks take a cipher and no field, `add_leaf` and `add_element` a field and no cipher. The
// field is its number, which may be any (`BINARY` of `field` says why), and words stay a slice beside it: docs/PROMISES.md (13.6) has the
// halves as the two parts of `acc.split_at_mut`.
ghost use Rattle.std.specs.Prelude.{[], ◌∷◌, ◌≡◌, ◌+◌, ◌*◌, ◌^◌, ◌≤◌, length};
ghost use Rattle.algebra.specs.Coding.{at};
ghost use Rattle.algebra.specs.Inner.Put.{put};
ghost use Rattle.field.specs.Kind.{element_words};
ghost use Rattle.tree.specs.Inner.Nodes.{node_of};
ghost use Rattle.tree.specs.Inner.Branches.{IsBranch};
ghost use Rattle.tree_sums.specs.Inner.Ranges.{leaf_added, children_added, element_added, child_under, all_children, both_added};

use aes_blocks::Two;
use field::{BINARY, Block, Element, FieldElement};
use prime::Prime;
use tree_walk::TreeCipher;

// Adds an element to element i of those that the words hold. Inlined, so that sums of leaves make no call more.
#[inline(always)]
fn add_at<E: FieldElement>(element: E, i: usize, acc: &mut [u64])
    requires { i * E.parts.coding.width + E.parts.coding.width ≤ length acc.old }
    ensures { acc.new ≡ put E.parts.coding acc.old i (E.parts.add (at E.parts.coding acc.old i) element) }
{
    E::at(acc, i).add(element).put(acc, i);
}

// Adds the element of a leaf to the one that the words hold.
pub fn add_leaf(field: usize, s: Block, acc: &mut [u64])
    requires { length acc.old ≡ element_words field }
    ensures { acc.new ≡ leaf_added field (node_of s) acc.old }
{
    if field == BINARY {
        add_at(s, 0, acc);
    } else {
        add_at(Prime::reduce(s.low), 0, acc);
    }
}

// Adds an element to the one that the words hold. Beside `add_leaf`, which reduces: a line a field. `Element::block` and `prime` are
// private to `field`: public, they would make an element of a field that no number names.
pub fn add_element(field: usize, element: Element, acc: &mut [u64])
    requires { length acc.old ≡ element_words field }
    ensures { acc.new ≡ element_added field (element.low ∷ element.high ∷ []) acc.old }
{
    if field == BINARY {
        let block = Block {
            low: element.low,
            high: element.high,
        };
        add_at(block, 0, acc);
    } else {
        add_at(Prime { word: element.low }, 0, acc);
    }
}

// Adds children c and c + 1 of s, which are leaves, to the elements of acc.
fn add_pair(cipher: TreeCipher, field: usize, c: usize, s: Block, acc: &mut [u64])
    requires { (c + 2 ≤ 8) × (length acc.old ≡ 2 * element_words field) }
    ensures { acc.new ≡ children_added field (child_under cipher.entry.keys.now) c 2 (node_of s) acc.old }
{
    let both = cipher.children(c, s);
    if field == BINARY {
        add_at(both.one, 0, acc);
        add_at(both.other, 1, acc);
    } else {
        add_at(Prime::reduce(both.one.low), 0, acc);
        add_at(Prime::reduce(both.other.low), 1, acc);
    }
}

// Adds four children of s from c on, which are leaves, to the elements of acc.
fn add_four(cipher: TreeCipher, field: usize, c: usize, s: Block, acc: &mut [u64])
    requires { (c + 4 ≤ 8) × (length acc.old ≡ 4 * element_words field) }
    ensures { acc.new ≡ children_added field (child_under cipher.entry.keys.now) c 4 (node_of s) acc.old }
{
    let (first, second) = acc.split_at_mut(acc.len() / 2);
    add_pair(cipher, field, c, s, first);
    add_pair(cipher, field, c + 2, s, second);
}

// Adds all two, four or eight children of s, which are leaves, to the elements of acc.
pub fn add_bottom(
    cipher: TreeCipher,
    field: usize,
    bits: usize,
    c: usize,
    s: Block,
    acc: &mut [u64],
)
    requires { IsBranch bits × (c + 2 ^ bits ≤ 8) × (length acc.old ≡ 2 ^ bits * element_words field) }
    ensures { acc.new ≡ children_added field (child_under cipher.entry.keys.now) c (2 ^ bits) (node_of s) acc.old }
{
    // An arm for each size: a recursion by halves would want a measure and be no shorter.
    match bits {
        1 => add_pair(cipher, field, c, s, acc),
        2 => add_four(cipher, field, c, s, acc),
        // Three: `IsBranch` allows no other.
        _ => {
            let (first, second) = acc.split_at_mut(acc.len() / 2);
            add_four(cipher, field, c, s, first);
            add_four(cipher, field, c + 4, s, second);
        }
    }
}

// Adds the two children of each of two nodes, which are leaves, to the elements of acc. Two nodes here, two pairs of one node's in
// `add_four`: with both as parameters one function has more of them than lines.
fn add_couple(cipher: TreeCipher, field: usize, both: Two<Block>, acc: &mut [u64])
    requires { length acc.old ≡ 4 * element_words field }
    ensures { acc.new
        ≡ both_added field (child_under cipher.entry.keys.now) (all_children 1 1) (node_of both.one) (node_of both.other) acc.old }
{
    let (first, second) = acc.split_at_mut(acc.len() / 2);
    add_pair(cipher, field, 0, both.one, first);
    add_pair(cipher, field, 0, both.other, second);
}

// Adds the leaves two levels below each of two nodes with two children a node: the children of both nodes are made before any
// leaf, so that no leaf waits for the cipher right before it.
pub fn add_both(cipher: TreeCipher, field: usize, both: Two<Block>, acc: &mut [u64])
    requires { length acc.old ≡ 8 * element_words field }
    ensures { acc.new
        ≡ both_added field (child_under cipher.entry.keys.now) (all_children 1 2) (node_of both.one) (node_of both.other) acc.old }
{
    let low = cipher.children(0, both.one);
    let high = cipher.children(0, both.other);
    let (first, second) = acc.split_at_mut(acc.len() / 2);
    add_couple(cipher, field, low, first);
    add_couple(cipher, field, high, second);
}
