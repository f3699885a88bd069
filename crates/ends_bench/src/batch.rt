// A window's outputs on a vector, in batches of up to 32 rows: for a batch each leaf is walked once.
ghost use Rattle.std.specs.Prelude.{◌≡◌, ◌+◌, ◌*◌, ◌≤◌, ◌<◌, length};
ghost use Rattle.aes128.specs.Inner.Words.{round_keys};
ghost use Rattle.algebra.specs.Coding.{flat, over};
ghost use Rattle.ends_bench_leaves.specs.Inner.Vectors.{field_for, values_of};
ghost use Rattle.ends_bench.specs.Inner.Rows.{output_of, strip_added, strip_of};

use crate::entries::{Pending, add_place, make_terms, pass_terms};
use code::Window;
use ends_bench_leaves::Vector;
use record::{Layout, leaves};

// How many places a strip has.
fn strip_size(layout: Layout) -> usize
    requires { (layout.depth ≤ 16) × (1 ≤ layout.terms) }
    ensures { result ≡ strip_of layout }
{
    leaves(layout.depth) / layout.terms
}

// Adds the places of strip i to the outputs, from the highest down.
fn add_strip(vector: &Vector, i: usize, rows: &[Pending], out: &mut [u64])
    requires { (i < vector.now.layout.terms)
        × (length out.old ≡ length rows.now * (field_for vector.now.number vector.now.layout.field).elements.width) }
    ensures { out.new ≡ strip_added vector.now.number vector.now.layout.field rows.now
        (values_of vector.now.number vector.now.source.now vector.now.layout)
        ((i + 1) * strip_of vector.now.layout) (strip_of vector.now.layout) out.old }
{
    let size = strip_size(vector.layout);
    let start = i * size;
    for left in (0..size).rev() {
        let j = start + left;
        let value = vector.value_at(j);
        add_place(vector, rows, j, value, out);
    }
}

// Writes the outputs of at most 32 rows of the code under these round keys.
fn write_batch(vector: &Vector, keys: &[u64; 40], window: Window, out: &mut [u64])
    requires { (window.count ≤ 32) × (window.first + window.count ≤ 32768)
        × (length out.old ≡ window.count * (field_for vector.now.number vector.now.layout.field).elements.width) }
    ensures { out.new ≡ flat (field_for vector.now.number vector.now.layout.field).elements window.count
        (λ k. output_of vector.now.number vector.now.source.now (round_keys keys.now) vector.now.layout (window.first + k)) }
{
    out.fill(0);
    let none = Pending {
        place: 0,
        coefficient: 0,
        sum: 0,
    };
    let mut all = [none; 32];
    let rows = &mut all[..window.count];
    for i in (0..vector.layout.terms).rev() {
        make_terms(vector, keys, window.first, i, rows);
        add_strip(vector, i, rows, out);
        pass_terms(vector.layout.field, rows);
    }
}

// The words of a vector's value, by numbers as `add_output` has them.
fn value_width(vector: usize, field: usize) -> usize
    ensures { result ≡ (field_for vector field).elements.width }
{
    if vector == 1 {
        1
    } else {
        field::element_width(field)
    }
}

// Writes the outputs of a window over the front of a buffer.
pub fn write_outputs(vector: &Vector, keys: &[u64; 40], window: Window, out: &mut [u64])
    requires { (window.first + window.count ≤ 32768)
        × (window.count * (field_for vector.now.number vector.now.layout.field).elements.width ≤ length out.old) }
    ensures { out.new ≡ over (field_for vector.now.number vector.now.layout.field).elements window.count
        (λ k. output_of vector.now.number vector.now.source.now (round_keys keys.now) vector.now.layout (window.first + k))
        out.old }
{
    let width = value_width(vector.number, vector.layout.field);
    for done in (0..window.count).step_by(32) {
        let batch = Window {
            first: window.first + done,
            count: (window.count - done).min(32),
        };
        let from = done * width;
        let to = from + batch.count * width;
        write_batch(vector, keys, batch, &mut out[from..to]);
    }
}
