// What the calls write to the front of their buffers. The loops of the last two calls share `mask_block`; one loop for both would take a
// closure for its one line.
ghost use Rattle.std.specs.Prelude.{◌≡◌, ◌+◌, ◌*◌, ◌≤◌, ◌<◌, length, get_or};
ghost use Rattle.algebra.specs.Coding.{over};
ghost use Rattle.algebra.specs.Inner.Put.{with_value};
ghost use Rattle.pads.specs.Messages.Bytes.{byte, sixteen, thirty_two, masked};
ghost use Rattle.pads.specs.Messages.Calls.{correction_tests, mask_tests, unmask_tests, correction_bit, answer_of, opened_of};
ghost use Rattle.answer.specs.Tests.{AllMet};

use pads::{block_at, put_block};

// Writes choice exclusive-or wanted bit of each output. By an index, since three slices go side by side; here and below they are C's.
pub fn write_bits(choices: &[u8], wanted: &[u8], bits_out: &mut [u8])
    requires { AllMet (correction_tests (length choices.now) choices.now wanted.now (length bits_out.old)) }
    ensures { bits_out.new
        ≡ over byte (length choices.now) (correction_bit choices.now wanted.now) bits_out.old }
{
    for k in 0..choices.len() {
        bits_out[k] = choices[k] ^ wanted[k];
    }
}

// Writes from a place on the exclusive or of 16 bytes from a place of each of two slices, as blocks of two words. Places are no longer
// than parts of slices, which a caller would have to cut three times.
fn mask_block(from: &[u8], at: usize, by: &[u8], start: usize, out: &mut [u8], to: usize)
    requires { (at + 16 ≤ length from.now) × (start + 16 ≤ length by.now) × (to + 16 ≤ length out.old) }
    ensures { out.new
        ≡ with_value sixteen out.old to (masked (sixteen.read from.now at) (sixteen.read by.now start)) }
{
    let a = block_at(from, at);
    let b = block_at(by, start);
    put_block(out, to, a.add(b));
}

// Writes both masked messages of output k.
fn put_answer(k: usize, bits: &[u8], pads: &[u8], messages: &[u8], answers: &mut [u8])
    requires { (k < length bits.now) × (get_or bits.now k 0 ≤ 1) × (32 * k + 32 ≤ length pads.now)
        × (32 * k + 32 ≤ length messages.now) × (32 * k + 32 ≤ length answers.old) }
    ensures { answers.new
        ≡ with_value thirty_two answers.old (32 * k) (answer_of bits.now pads.now messages.now k) }
{
    let block0 = 32 * k;
    let block1 = block0 + 16;
    let bit = bits[k] as usize;
    let named = block0 + 16 * bit;
    let other = block0 + 16 * (1 - bit);
    mask_block(messages, block0, pads, named, answers, block0);
    mask_block(messages, block1, pads, other, answers, block1);
}

// Writes both masked messages of each output.
pub fn write_answers(bits: &[u8], pads: &[u8], messages: &[u8], answers_out: &mut [u8])
    requires { AllMet (mask_tests (length bits.now) bits.now pads.now messages.now (length answers_out.old)) }
    ensures { answers_out.new
        ≡ over thirty_two (length bits.now) (answer_of bits.now pads.now messages.now) answers_out.old }
{
    for k in 0..bits.len() {
        put_answer(k, bits, pads, messages, answers_out);
    }
}

// Writes the wanted message of output k.
fn put_opened(k: usize, wanted: &[u8], pads: &[u8], answers: &[u8], messages: &mut [u8])
    requires { (k < length wanted.now) × (get_or wanted.now k 0 ≤ 1) × (16 * k + 16 ≤ length pads.now)
        × (32 * k + 32 ≤ length answers.now) × (16 * k + 16 ≤ length messages.old) }
    ensures { messages.new
        ≡ with_value sixteen messages.old (16 * k) (opened_of wanted.now pads.now answers.now k) }
{
    let bit = wanted[k] as usize;
    let place = 16 * k;
    mask_block(answers, 32 * k + 16 * bit, pads, place, messages, place);
}

// Writes the wanted message of each output.
pub fn write_opened(wanted: &[u8], pads: &[u8], answers: &[u8], messages_out: &mut [u8])
    requires { AllMet (unmask_tests (length wanted.now) wanted.now pads.now answers.now (length messages_out.old)) }
    ensures { messages_out.new
        ≡ over sixteen (length wanted.now) (opened_of wanted.now pads.now answers.now) messages_out.old }
{
    for k in 0..wanted.len() {
        put_opened(k, wanted, pads, answers, messages_out);
    }
}
