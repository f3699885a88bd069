// Writing records into a lent buffer, and their lengths. Each writer takes the buffer and a place, and gives the place after what it
// wrote: `Wrote` says of each that and the bytes, which a writer that moves would say besides where it then stands.
ghost use Rattle.std.specs.Prelude.{◌≡◌, ◌+◌, ◌*◌, ◌^◌, ◌≤◌, ◌<◌, length};
ghost use Rattle.field.specs.ByNumber.{element_of};
ghost use Rattle.number.specs.Inner.Written.{numbers, Room, Wrote};
ghost use Rattle.record.specs.Inner.Ends.{end_byte};
ghost use Rattle.record.specs.Inner.Rising.{RisesFrom};
ghost use Rattle.record.specs.Inner.Heads.{head_from, scalar_with};
ghost use Rattle.record.specs.Writing.{write_head, write_value, write_words, write_scalar};
ghost use Rattle.record.specs.Inner.Lengths.{Writable, after_depth_bytes, sizes_bytes, tree_start_bytes};
ghost use Rattle.record.specs.Inner.Lengths.{head_length, tree_start_length, tree_length, noise_length, scalar_length};

use crate::sizes::sibling_count;
use crate::{End, Layout};
use field::{Element, element_length, one_noise, put_element, put_word};
use number::{number_length, write_number};

// Writes bytes from a place on; the place after them. Byte by byte: `copy_from_slice` here makes the archive ask for `memmove`.
pub fn write_bytes(buffer: &mut [u8], at: usize, bytes: &[u8]) -> usize
    requires { Room buffer.old at bytes.now }
    ensures { Wrote buffer.old at bytes.now result buffer.new }
{
    for i in 0..bytes.len() {
        buffer[at + i] = bytes[i];
    }
    at + bytes.len()
}

// Writes a noise value from a place on, none where it is always 1; the place after it.
fn write_value(buffer: &mut [u8], at: usize, field: usize, value: u64) -> usize
    requires { Room buffer.old at (write_value field value) }
    ensures { Wrote buffer.old at (write_value field value) result buffer.new }
{
    if one_noise(field) {
        return at;
    }
    put_word(buffer, at, value);
    at + 8
}

// Writes an element from a place on; the place after it.
fn write_element(buffer: &mut [u8], at: usize, field: usize, element: Element) -> usize
    requires { Room buffer.old at (write_words (element_of field element.low element.high)) }
    ensures { Wrote buffer.old at (write_words (element_of field element.low element.high)) result buffer.new }
{
    put_element(field, buffer, at, element);
    at + element_length(field)
}

// Writes g, t, ℓ and n from a place on; the place after them.
fn write_after_depth(buffer: &mut [u8], at: usize, layout: Layout) -> usize
    requires { (Writable layout) × (Room buffer.old at (after_depth_bytes layout)) }
    ensures { Wrote buffer.old at (after_depth_bytes layout) result buffer.new }
{
    let at4 = write_number(buffer, at, layout.branch_bits);
    let at5 = write_number(buffer, at4, layout.trees);
    let at6 = write_number(buffer, at5, layout.terms);
    write_number(buffer, at6, layout.outputs)
}

// Writes d, g, t, ℓ and n after the field byte; the place after them.
fn write_sizes(buffer: &mut [u8], layout: Layout) -> usize
    requires { (Writable layout) × (Room buffer.old 2 (sizes_bytes layout)) }
    ensures { Wrote buffer.old 2 (sizes_bytes layout) result buffer.new }
{
    let at = write_number(buffer, 2, layout.depth);
    write_after_depth(buffer, at, layout)
}

// Writes the head of a record at the buffer's front; the place after it.
pub fn write_head(
    buffer: &mut [u8],
    end: End,
    layout: Layout,
    code_key: &[u8],
    label: &[u8],
) -> usize
    requires { (Writable layout) × (length code_key.now ≡ 16) × (length label.now ≡ 16)
        × (Room buffer.old 0 (write_head (end_byte end) (head_from layout code_key.now label.now))) }
    ensures { Wrote buffer.old 0 (write_head (end_byte end) (head_from layout code_key.now label.now)) result buffer.new }
{
    buffer[0] = end.byte();
    buffer[1] = layout.field as u8;
    let at = write_sizes(buffer, layout);
    let next = write_bytes(buffer, at, code_key);
    write_bytes(buffer, next, label)
}

// Writes a tree up to its siblings from a place on, its position as the number `back`; the place of the siblings. No `Tree`, since
// one holds the place that is the answer here.
pub fn write_tree_start(
    buffer: &mut [u8],
    at: usize,
    field: usize,
    back: usize,
    value: u64,
    correction: Element,
) -> usize
    requires { (back < numbers) × (Room buffer.old at (tree_start_bytes field back value (element_of field correction.low correction.high))) }
    ensures { Wrote buffer.old at
        (tree_start_bytes field back value (element_of field correction.low correction.high)) result buffer.new }
{
    let next = write_number(buffer, at, back);
    let middle = write_value(buffer, next, field, value);
    write_element(buffer, middle, field, correction)
}

// Writes the scalar record at the buffer's front; its length.
pub fn write_scalar(
    buffer: &mut [u8],
    layout: Layout,
    code_key: &[u8],
    label: &[u8],
    delta: Element,
    roots: &[u8],
) -> usize
    requires { (Writable layout) × (length code_key.now ≡ 16) × (length label.now ≡ 16)
        × (length roots.now ≡ 16 * layout.trees) × (Room buffer.old 0
        (write_scalar (scalar_with layout code_key.now label.now (element_of layout.field delta.low delta.high) roots.now))) }
    ensures { Wrote buffer.old 0
        (write_scalar (scalar_with layout code_key.now label.now
        (element_of layout.field delta.low delta.high) roots.now)) result buffer.new }
{
    let at = write_head(buffer, End::Scalar, layout, code_key, label);
    let next = write_element(buffer, at, layout.field, delta);
    write_bytes(buffer, next, roots)
}

// How many bytes a head takes. Five sizes and no `Layout`, since a layout holds the place after its head, which is this length.
pub fn head_length(
    depth: usize,
    branch_bits: usize,
    trees: usize,
    terms: usize,
    outputs: usize,
) -> usize
    ensures { result ≡ head_length depth branch_bits trees terms outputs }
{
    let up_to_trees = number_length(depth) + number_length(branch_bits) + number_length(trees);
    let from_terms = number_length(terms) + number_length(outputs);
    2 + (up_to_trees + from_terms) + 32
}

// How many bytes a tree takes up to its siblings.
pub fn tree_start_length(base: usize, position: usize) -> usize
    requires { base ≤ position }
    ensures { result ≡ tree_start_length base position }
{
    number_length(position - base) + 16
}

// How many bytes a tree takes, after positions below `base`.
pub fn tree_length(layout: Layout, base: usize, position: usize) -> usize
    requires { (Writable layout) × (base ≤ position) }
    ensures { (result ≡ tree_length layout base position) × (result ≤ 1811) }
{
    tree_start_length(base, position) + 16 * sibling_count(layout.depth, layout.branch_bits)
}

// How many bytes the scalar record takes. It goes by the sizes alone, and the noise record's length by the positions too: so they are two.
pub fn scalar_length(layout: Layout) -> usize
    requires { Writable layout }
    ensures { result ≡ scalar_length layout }
{
    layout.body + (element_length(layout.field) + 16 * layout.trees)
}

// How many bytes the noise record takes. The loop carries what the next position is written from.
pub fn noise_length(layout: Layout, positions: &[u32]) -> usize
    requires { (Writable layout) × (length positions.now ≤ 64) × (RisesFrom (2 ^ layout.depth) 0 positions.now) }
    ensures { result ≡ noise_length layout positions.now }
{
    let mut total = layout.body;
    let mut base: usize = 0;
    for position in positions {
        let position = *position as usize;
        total += tree_length(layout, base, position);
        base = position + 1;
    }
    total
}
