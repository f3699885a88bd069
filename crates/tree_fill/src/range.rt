// Consecutive children of a node, halved along the path to a position.
ghost use Rattle.std.specs.Prelude.{◌≢◌, ◌≡◌, ◌+◌, ◌*◌, ◌-◌, ◌^◌, ◌≤◌, ◌<◌};
ghost use Rattle.tree_sums.specs.Inner.Ranges.{IsRange, all_children, child_count, size_of};
ghost use Rattle.tree_fill.specs.Inner.Ranges.{IsPath, half_from, first_half, path_in, AreHalves};

use tree_sums::Range;
use tree_walk::power;

// A range with a position among the leaves below it, and the place where the bytes of its level's siblings begin. Not a `Punctured` with
// the range's bits and first child: `add_range` and `add_run`, which take no position, take the range.
// `at` is a place in lent bytes, as the head of `number` says.
#[derive(Clone, Copy)]
pub struct Path {
    pub range: Range,
    pub position: usize,
    pub at: usize,
}

// The halves of a range that holds a path: the one that holds it, the other as a run of siblings, and whether it is the first
// that holds it; both halves are there either way, so no Option.
#[derive(Clone, Copy)]
pub struct Halves {
    pub below: Path,
    pub beside: Range,
    pub lower: bool,
}

// How many leaves are below half of a range.
fn half_size(range: Range) -> usize
    requires { IsRange range × (range.levels ≢ 0) × (range.levels * range.branch_bits ≤ 64) }
    ensures { result ≡ size_of (first_half range) }
{
    power((range.levels - 1) * range.branch_bits + (range.bits - 1))
}

// Where the siblings of the next level begin.
fn next_level(branch_bits: usize, at: usize) -> usize
    requires { (branch_bits ≤ 3) × (at + 16 * (2 ^ branch_bits - 1) < 2 ^ 64) }
    ensures { result ≡ at + 16 * (2 ^ branch_bits - 1) }
{
    let count = power(branch_bits);
    at + 16 * (count - 1)
}

// All children of a node with so many levels below it.
pub fn all_children(branch_bits: usize, levels: usize) -> Range
    ensures { result ≡ all_children branch_bits levels }
{
    Range {
        branch_bits,
        levels,
        bits: branch_bits,
        from: 0,
    }
}

// Half as many children, from child c on.
pub fn half_from(range: Range, c: usize) -> Range
    requires { 1 ≤ range.bits }
    ensures { result ≡ half_from range c }
{
    Range {
        bits: range.bits - 1,
        from: c,
        ..range
    }
}

// The half from child c on of a range that holds a path, at a position in it: of two children one, as all its own children.
fn path_in(path: Path, c: usize, position: usize) -> Path
    requires { IsRange path.range × (path.range.levels ≢ 0) × (path.at + 16 * (child_count path.range - 1) < 2 ^ 64) }
    ensures { result ≡ path_in path c position }
{
    let range = path.range;
    if range.bits == 1 {
        Path {
            range: all_children(range.branch_bits, range.levels - 1),
            position,
            at: next_level(range.branch_bits, path.at),
        }
    } else {
        Path {
            range: half_from(range, c),
            position,
            at: path.at,
        }
    }
}

// The halves of a range that holds a path.
pub fn parted(path: Path) -> Halves
    requires { IsPath path (2 ^ 64 - 1) × (path.range.levels ≢ 0) }
    ensures { AreHalves path result }
{
    let range = path.range;
    let position = path.position;
    let from = range.from;
    let half = half_size(range);
    let count = power(range.bits - 1);
    if position < half {
        let below = path_in(path, from, position);
        let beside = half_from(range, from + (count - 1));
        Halves {
            below,
            beside,
            lower: true,
        }
    } else {
        let below = path_in(path, from + count, position - half);
        let beside = half_from(range, from);
        Halves {
            below,
            beside,
            lower: false,
        }
    }
}
