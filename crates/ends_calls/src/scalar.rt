// The scalar end's calls: offline writes the accumulated w0 and Δ, online a window of w. A refused call writes nothing.
ghost use Rattle.std.specs.Prelude.{◌≡◌};
ghost use Rattle.answer.specs.Outcome.{outcome_one, outcome_two};
ghost use Rattle.ends.specs.Scalar.Offline.{offline_with, offline};
ghost use Rattle.ends.specs.Scalar.Online.{lent_with, online};

use crate::accepted::ScalarRecord;
pub use crate::scalar_trees::root_place;
use answer::{ACCEPTED, OneLength, Refusal, TwoLengths};
use code::Window;
use field::element_width;
use record::leaves;
use window::Accumulated;
use window_tests::{check_window, vector_words};
use window_write::write_rows;

// Writes the accumulated w0 to the front of w, and the two words of Δ.
pub fn offline(source: &[u8], w: &mut [u64], delta: &mut [u64]) -> TwoLengths
    ensures { outcome_two result (offline_with source.now w.new delta.new)
        ≡ offline source.now w.old delta.old }
{
    let record = match ScalarRecord::read(source) {
        Ok(record) => record,
        Err(refusal) => return TwoLengths::refused(refusal),
    };
    let layout = record.layout;
    let words = vector_words(layout);
    if w.len() < words {
        return TwoLengths::refused(Refusal::BufferShort);
    }
    if delta.len() < 2 {
        return TwoLengths::refused(Refusal::BufferShort);
    }
    record.write_accumulated(&mut w[..words]);
    record.write_delta(delta);
    TwoLengths {
        number: ACCEPTED,
        first_written: words,
        second_written: 2,
    }
}

// Writes the window's outputs of the accumulated vector w to the front of w_out.
pub fn online(source: &[u8], w: &[u64], first: usize, count: usize, w_out: &mut [u64]) -> OneLength
    ensures { outcome_one result (lent_with source.now w.now w_out.new)
        ≡ online (lent_with source.now w.now w_out.old) first count }
{
    let record = match ScalarRecord::read(source) {
        Ok(record) => record,
        Err(refusal) => return OneLength::refused(refusal),
    };
    let layout = record.layout;
    let window = Window { first, count };
    if let Err(refusal) = check_window(
        layout,
        leaves(layout.depth),
        w.len(),
        window,
        count,
        w_out.len(),
    ) {
        return OneLength::refused(refusal);
    }
    let words = count * element_width(layout.field);
    if let Err(refusal) = write_rows(
        record.source,
        layout,
        window,
        Accumulated::Scalar { w },
        &mut [],
        w_out,
    ) {
        return OneLength::refused(refusal);
    }
    OneLength {
        number: ACCEPTED,
        written: words,
    }
}
