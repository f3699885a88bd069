// The noise record.
ghost use Rattle.std.specs.Prelude.{true, ◌≡◌, ◌+◌, ◌*◌, ◌^◌, ◌≤◌, ◌<◌, get_or, IfOk};
ghost use Rattle.field.specs.ByNumber.{element_of};
ghost use Rattle.number.specs.Answer.{number_read};
ghost use Rattle.number.specs.Reading.{Whole};
ghost use Rattle.number.specs.Inner.Known.{is_whole};
ghost use Rattle.record.specs.Reading.{read_position, read_tree, read_head, read_noise};
ghost use Rattle.record.specs.Inner.Answers.{tree_read, tree_of, SecondIn};
ghost use Rattle.record.specs.Answer.{head_if_whole, record_read};

use crate::element::{read_correction, read_value};
use answer::Refusal;
use number::{read_number, tested};
use record::{End, Layout, Tree, leaves, sibling_count};
use record_head::{read_head, skip};

// A position below `all`, after positions below `base`, and the place after it.
fn read_position(
    source: &[u8],
    at: usize,
    base: usize,
    all: usize,
) -> Result<(usize, usize), Refusal>
    requires { base ≤ all }
    ensures { number_read result ≡ read_position base all source.now at }
{
    let left = all - base;
    let (back, at) = tested(read_number(source, at), Refusal::BadPosition, |back| {
        back < left
    })?;
    Ok((base + back, at))
}

// A tree with so many siblings, after positions below `base`, and the place after it. Field, depth and siblings stay three parameters:
// `known_tree`, which ARCHITECTURE.md names, promises its tree for any three by which one is read whole.
#[inline(always)]
fn read_tree(
    source: &[u8],
    at: usize,
    base: usize,
    field: usize,
    depth: usize,
    siblings: usize,
) -> Result<(Tree, usize), Refusal>
    requires { (base ≤ 2 ^ depth) × (depth ≤ 16) × (16 * siblings < 2 ^ 64) }
    ensures value { tree_read source.now field siblings result ≡ read_tree field depth siblings base source.now at }
    ensures second { IfOk result (λ read. SecondIn field read.0.correction) }
    ensures end { IfOk result (λ read. read.1 ≡ read.0.siblings + 16 * siblings) }
{
    let (position, at) = read_position(source, at, base, leaves(depth))?;
    let (value, at) = read_value(source, at, field)?;
    let (correction, at) = read_correction(source, at, field)?;
    let end = skip(source, at, 16 * siblings)?;
    let tree = Tree {
        position,
        value,
        correction,
        siblings: at,
    };
    Ok((tree, end))
}

// The noise record, whole and tested. The loop carries the next place: an iterator of trees would be a struct of both places, and be lent
// to the loop, since the place after the last tree is tested.
pub fn read_noise(source: &[u8]) -> Result<Layout, Refusal>
    ensures { record_read source.now result ≡ head_if_whole (read_noise source.now) (read_head 1 source.now) }
{
    let layout = read_head(source, End::Noise as u8)?;
    let siblings = sibling_count(layout.depth, layout.branch_bits);
    let mut at = layout.body;
    let mut base: usize = 0;
    for _ in 0..layout.trees {
        let (tree, next) = read_tree(source, at, base, layout.field, layout.depth, siblings)?;
        base = tree.position + 1;
        at = next;
    }
    if at < source.len() {
        return Err(Refusal::BytesAfter);
    }
    Ok(layout)
}

// The tree at a place of an accepted noise record, after positions below `base`. The next tree follows its siblings.
pub fn known_tree(
    source: &[u8],
    at: usize,
    base: usize,
    field: usize,
    depth: usize,
    siblings: usize,
) -> Tree
    requires { (is_whole (read_tree field depth siblings base source.now at) ≡ true) × (depth ≤ 16) }
    ensures { (Whole (tree_of source.now field siblings result, result.siblings + 16 * siblings)
        ≡ read_tree field depth siblings base source.now at)
        × (result.correction.high ≡ get_or (element_of field result.correction.low result.correction.high) 1 0) }
{
    let Ok((tree, _)) = read_tree(source, at, base, field, depth, siblings) else {
        unreachable!()
    };
    tree
}
