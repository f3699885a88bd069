// The noise record: the head, then tree by tree.
ghost use Rattle.std.specs.Prelude.{◌≡◌, ◌+◌, ◌^◌, ◌≤◌, ◌<◌, length};
ghost use Rattle.field.specs.ByNumber.{element_of};
ghost use Rattle.number.specs.Inner.Written.{Room, Wrote};
ghost use Rattle.record.specs.Writing.{write_tree, write_noise};
ghost use Rattle.dealing.specs.Parts.{noise_part};
ghost use Rattle.tree.specs.Inner.Keys.{keys_for};
ghost use Rattle.tree.specs.KeySchedules.{OfChildKeys};
ghost use Rattle.dealing_tests.specs.Inner.Lent.{input_of};
ghost use Rattle.dealing_call.specs.Inner.Steps.{Placed, TreesPlaced, NoisePlaced};
ghost use Rattle.dealing_call.specs.Inner.Steps.{correction_words, planned, planned_bytes, planned_tree, trees_bytes};

use aes_sbox::Tables;
use dealing_tests::Input;
use field::{Element, element_at, element_difference, element_scaled, leaf_element};
use record::{End, Layout, sibling_count, tree_start_length, write_head, write_tree_start};
use tree::Punctured;
use tree_walk::{TreeCipher, child_keys, columns_at, walk};

// The correction of a tree: the element of the leaf at its position minus Δ × its noise value.
fn correction(field: usize, leaf: [[u8; 4]; 4], value: u64, delta: &[u8]) -> Element
    requires { length delta.now ≡ 16 }
    ensures { element_of field result.low result.high ≡ correction_words field leaf value delta.now }
{
    let scalar = element_at(field, delta, 0);
    let element = leaf_element(field, leaf);
    let multiple = element_scaled(field, value, scalar);
    element_difference(field, element, multiple)
}

// A tree to be written: its record's layout, position, noise value, one more than the position before, and the place for it.
#[derive(Clone, Copy)]
pub struct Planned {
    pub layout: Layout,
    pub position: usize,
    pub value: u64,
    pub base: usize,
    pub at: usize,
}

// Tree i, after positions below `base`, at a place. Positions and values lie in a buffer each, as C lends them.
fn plan(input: &Input, i: usize, base: usize, at: usize) -> Planned
    requires { (i < length input.now.positions.now) × (i < length input.now.values.now) }
    ensures { result ≡ planned input.now.layout input.now.positions.now input.now.values.now i base at }
{
    Planned {
        layout: input.layout,
        position: input.positions[i] as usize,
        value: input.values[i],
        base,
        at,
    }
}

// Writes a tree up to its siblings at its place, the correction from the leaf at its position.
fn write_planned(leaf: [[u8; 4]; 4], tree: Planned, delta: &[u8], out: &mut [u8]) -> usize
    requires { (tree.base ≤ tree.position) × (tree.position < 65536) × (length delta.now ≡ 16)
        × (Room out.old tree.at (planned_bytes tree leaf delta.now)) }
    ensures { Wrote out.old tree.at (planned_bytes tree leaf delta.now) result out.new }
{
    let words = correction(tree.layout.field, leaf, tree.value, delta);
    let back = tree.position - tree.base;
    write_tree_start(out, tree.at, tree.layout.field, back, tree.value, words)
}

// Writes a tree at its place; the place after it. The walk to the leaf writes the siblings.
fn write_tree(
    cipher: TreeCipher,
    root: [[u8; 4]; 4],
    tree: Planned,
    delta: &[u8],
    out: &mut [u8],
) -> usize
    requires child_keys { OfChildKeys (2 ^ tree.layout.branch_bits) (keys_for cipher.keys.now) }
    requires placed { Placed tree root delta.now out.old }
    ensures { Wrote out.old tree.at
        (write_tree tree.layout.field tree.base (planned_tree tree root delta.now)) result out.new }
{
    let siblings = tree.at + tree_start_length(tree.base, tree.position);
    let next = siblings + 16 * sibling_count(tree.layout.depth, tree.layout.branch_bits);
    let place = Punctured {
        branch_bits: tree.layout.branch_bits,
        levels: tree.layout.depth / tree.layout.branch_bits,
        position: tree.position,
        at: siblings,
    };
    let leaf = walk(cipher, root, place, out);
    write_planned(leaf, tree, delta, out);
    next
}

// Writes the trees after the head; the place after them. Place and base are carried: each tree's follow from the one before.
fn write_trees(out: &mut [u8], input: &Input) -> usize
    requires { TreesPlaced input.now.layout input.now.roots.now input.now.positions.now input.now.values.now
        input.now.delta.now out.old }
    ensures { Wrote out.old input.now.layout.body
        (trees_bytes input.now.layout input.now.roots.now input.now.positions.now input.now.values.now
        input.now.delta.now) result out.new }
{
    let mut words = [0u64; 1536];
    let tables = Tables::fill(&mut words);
    let keys = child_keys(input.layout.branch_bits);
    let cipher = TreeCipher {
        tables,
        keys: &keys,
    };
    let mut at = input.layout.body;
    let mut base: usize = 0;
    for i in 0..input.layout.trees {
        let tree = plan(input, i, base, at);
        let root = columns_at(input.roots, 16 * i);
        at = write_tree(cipher, root, tree, input.delta, out);
        base = tree.position + 1;
    }
    at
}

// Writes the noise record at the buffer's front; its length.
pub fn write_noise(out: &mut [u8], input: &Input) -> usize
    requires { NoisePlaced input.now.layout (input_of input.now) (length out.old) }
    ensures { Wrote out.old 0 (write_noise (noise_part (input_of input.now))) result out.new }
{
    write_head(out, End::Noise, input.layout, input.code_key, input.label);
    write_trees(out, input)
}
