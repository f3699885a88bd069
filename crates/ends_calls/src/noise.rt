// The noise end's calls: offline writes the accumulated μ and v0, online a window of u and v. A refused call writes nothing.
ghost use Rattle.std.specs.Prelude.{◌≡◌};
ghost use Rattle.ends.specs.Noise.Offline.{offline_with, offline};
ghost use Rattle.answer.specs.Outcome.{outcome_two};
ghost use Rattle.ends.specs.Noise.Online.{lent_with, online};

use crate::accepted::NoiseRecord;
pub use crate::noise_trees::tree_at;
use answer::{ACCEPTED, Refusal, TwoLengths};
use code::Window;
use field::element_width;
use record::leaves;
use window::Accumulated;
use window_tests::{check_window, vector_words};
use window_write::write_rows;

// Writes the accumulated μ to the front of noise, and the accumulated v0 to the front of v.
pub fn offline(source: &[u8], noise: &mut [u64], v: &mut [u64]) -> TwoLengths
    ensures { outcome_two result (offline_with source.now noise.new v.new)
        ≡ offline source.now noise.old v.old }
{
    let record = match NoiseRecord::read(source) {
        Ok(record) => record,
        Err(refusal) => return TwoLengths::refused(refusal),
    };
    let layout = record.layout;
    let size = leaves(layout.depth);
    if noise.len() < size {
        return TwoLengths::refused(Refusal::BufferShort);
    }
    let words = vector_words(layout);
    if v.len() < words {
        return TwoLengths::refused(Refusal::BufferShort);
    }
    record.write_accumulated(&mut noise[..size], &mut v[..words]);
    TwoLengths {
        number: ACCEPTED,
        first_written: size,
        second_written: words,
    }
}

// Writes the window's outputs of the accumulated vectors: u to the front of u_out, v to the front of v_out.
pub fn online(
    source: &[u8],
    noise: &[u64],
    v: &[u64],
    first: usize,
    count: usize,
    u_out: &mut [u64],
    v_out: &mut [u64],
) -> TwoLengths
    ensures { outcome_two result (lent_with source.now noise.now v.now u_out.new v_out.new)
        ≡ online (lent_with source.now noise.now v.now u_out.old v_out.old) first count }
{
    let record = match NoiseRecord::read(source) {
        Ok(record) => record,
        Err(refusal) => return TwoLengths::refused(refusal),
    };
    let layout = record.layout;
    let window = Window { first, count };
    if let Err(refusal) = check_window(
        layout,
        noise.len(),
        v.len(),
        window,
        u_out.len(),
        v_out.len(),
    ) {
        return TwoLengths::refused(refusal);
    }
    if let Err(refusal) = write_rows(
        record.source,
        layout,
        window,
        Accumulated::Noise { noise, v },
        u_out,
        v_out,
    ) {
        return TwoLengths::refused(refusal);
    }
    TwoLengths {
        number: ACCEPTED,
        first_written: count,
        second_written: count * element_width(layout.field),
    }
}
