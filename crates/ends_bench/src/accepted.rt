// A call on an accepted record: the tests 7 and 13, and the outputs written. A test, a writer and an answer for each end, as C has a call
// and an answer for each, and as each end has tests of its own (`bench_tests` of Noise/Bench and of Scalar/Bench).
ghost use Rattle.std.specs.Prelude.{◌≡◌, [], ◌+◌, ◌*◌, ◌≤◌, length};
ghost use Rattle.answer.specs.Outcome.{outcome_one, outcome_two};
ghost use Rattle.answer.specs.Refused.{fault};
ghost use Rattle.answer.specs.Tests.{first_fault};
ghost use Rattle.field.specs.Kind.{element_words};
ghost use Rattle.record.specs.Inner.Heads.{head_from};
ghost use Rattle.ends.specs.Inner.Noise as noise_ready;
ghost use Rattle.ends.specs.Inner.Scalar as scalar_ready;
ghost use Rattle.ends.specs.Noise.Bench as noise;
ghost use Rattle.ends.specs.Scalar.Bench as scalar;
ghost use Rattle.ends_bench.specs.Inner.Calls.{NoiseFits, ScalarFits};

use crate::batch::write_outputs;
use aes_sbox::Tables;
use answer::{ACCEPTED, OneLength, Refusal, TwoLengths, is_past};
use code::Window;
use ends_bench_leaves::{Vector, no_trees, tree_table};
use ends_calls::{NoiseRecord, ScalarRecord};
use field::element_width;
use record::Layout;
use tree_walk::{TreeCipher, child_keys};
use window_tests::code_keys;

// The words of a window's elements.
fn words_for(layout: Layout, window: Window) -> usize
    requires { window.first + window.count ≤ 32768 }
    ensures { result ≡ window.count * element_words layout.field }
{
    window.count * element_width(layout.field)
}

// The tests after a noise record, for buffers of these lengths.
fn check_noise(layout: Layout, window: Window, u_room: usize, v_room: usize) -> Result<(), Refusal>
    requires { layout.outputs ≤ 32768 }
    ensures { fault result ≡ first_fault (noise.bench_tests (head_from layout [] []) window.first window.count u_room v_room) }
{
    if is_past(window.first, window.count, layout.outputs) {
        return Err(Refusal::WindowPastEnd);
    }
    if u_room < window.count {
        return Err(Refusal::BufferShort);
    }
    if v_room < words_for(layout, window) {
        return Err(Refusal::BufferShort);
    }
    Ok(())
}

// The tests after a scalar record, for a buffer of this length.
fn check_scalar(layout: Layout, window: Window, room: usize) -> Result<(), Refusal>
    requires { layout.outputs ≤ 32768 }
    ensures { fault result ≡ first_fault (scalar.bench_tests (head_from layout [] []) window.first window.count room) }
{
    if is_past(window.first, window.count, layout.outputs) {
        return Err(Refusal::WindowPastEnd);
    }
    if room < words_for(layout, window) {
        return Err(Refusal::BufferShort);
    }
    Ok(())
}

// Writes a noise record's window.
fn write_both(accepted: NoiseRecord, window: Window, u_out: &mut [u64], v_out: &mut [u64])
    requires { NoiseFits accepted.layout window (length u_out.old) (length v_out.old) }
    ensures { noise.lent_with accepted.entry.source.now u_out.new v_out.new
        ≡ noise.filled (noise_ready.content_of accepted.entry.source.now accepted.entry.layout)
        (noise.lent_with accepted.entry.source.now u_out.old v_out.old) window.first window.count }
{
    let mut words = [0u64; 1536];
    let keys = child_keys(accepted.layout.branch_bits);
    let cipher = TreeCipher {
        tables: Tables::fill(&mut words),
        keys: &keys,
    };
    let code = code_keys(accepted.source, accepted.layout);
    let table = tree_table(accepted);
    let mu = Vector::of_noise(1, accepted, &table, cipher);
    write_outputs(&mu, &code, window, u_out);
    let v0 = Vector::of_noise(2, accepted, &table, cipher);
    write_outputs(&v0, &code, window, v_out);
}

// The noise end's call on a record that was accepted.
pub fn write_noise(
    accepted: NoiseRecord,
    window: Window,
    u_out: &mut [u64],
    v_out: &mut [u64],
) -> TwoLengths
    ensures { outcome_two result (noise.lent_with accepted.entry.source.now u_out.new v_out.new)
        ≡ noise.bench_window (noise_ready.content_of accepted.entry.source.now accepted.entry.layout)
        (noise.lent_with accepted.entry.source.now u_out.old v_out.old) window.first window.count }
{
    if let Err(refusal) = check_noise(accepted.layout, window, u_out.len(), v_out.len()) {
        return TwoLengths::refused(refusal);
    }
    write_both(accepted, window, u_out, v_out);
    TwoLengths {
        number: ACCEPTED,
        first_written: window.count,
        second_written: words_for(accepted.layout, window),
    }
}

// Writes a scalar record's window.
fn write_w(accepted: ScalarRecord, window: Window, w_out: &mut [u64])
    requires { ScalarFits accepted.layout window (length w_out.old) }
    ensures { scalar.lent_with accepted.entry.source.now w_out.new
        ≡ scalar.filled (scalar_ready.content_of accepted.entry.source.now accepted.entry.layout)
        (scalar.lent_with accepted.entry.source.now w_out.old) window.first window.count }
{
    let mut words = [0u64; 1536];
    let keys = child_keys(accepted.layout.branch_bits);
    let cipher = TreeCipher {
        tables: Tables::fill(&mut words),
        keys: &keys,
    };
    let code = code_keys(accepted.source, accepted.layout);
    let table = no_trees();
    let w0 = Vector::of_scalar(accepted, &table, cipher);
    write_outputs(&w0, &code, window, w_out);
}

// The scalar end's call on a record that was accepted.
pub fn write_scalar(accepted: ScalarRecord, window: Window, w_out: &mut [u64]) -> OneLength
    ensures { outcome_one result (scalar.lent_with accepted.entry.source.now w_out.new)
        ≡ scalar.bench_window (scalar_ready.content_of accepted.entry.source.now accepted.entry.layout)
        (scalar.lent_with accepted.entry.source.now w_out.old) window.first window.count }
{
    if let Err(refusal) = check_scalar(accepted.layout, window, w_out.len()) {
        return OneLength::refused(refusal);
    }
    write_w(accepted, window, w_out);
    OneLength {
        number: ACCEPTED,
        written: words_for(accepted.layout, window),
    }
}
