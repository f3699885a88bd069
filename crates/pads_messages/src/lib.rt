// Messages of the callers' own choosing, passed under pads of field 1: the noise end's correction bits, the scalar end's
// answers, and their opening: three functions, since C calls each and each has a promise of its own on document 02's page. The definitions
// and laws stand in crate `pads`.
#![tactic(auto)]

ghost use Rattle.std.specs.Prelude.{◌≡◌};
ghost use Rattle.answer.specs.Outcome.{outcome_one};
ghost use Rattle.pads.specs.Messages.Calls.{lent_correction, lent_mask, lent_unmask, correction_bits, mask_messages, unmask_messages};

mod mask;
mod tests;

use answer::{ACCEPTED, OneLength};
use mask::{write_answers, write_bits, write_opened};
use tests::{check_blocks, check_correction};

// The noise end's bits to send: choice exclusive-or wanted bit, a byte an output.
pub fn correction_bits(
    count: usize,
    choices: &[u8],
    wanted: &[u8],
    bits_out: &mut [u8],
) -> OneLength
    ensures { outcome_one result (lent_correction choices.now wanted.now bits_out.new)
        ≡ correction_bits count (lent_correction choices.now wanted.now bits_out.old) }
{
    if let Err(refusal) = check_correction(count, choices, wanted, bits_out.len()) {
        return OneLength::refused(refusal);
    }
    write_bits(choices, wanted, bits_out);
    OneLength {
        number: ACCEPTED,
        written: count,
    }
}

// The scalar end's answers: message 0 masked by the pad that the bit names, message 1 by the other, 32 bytes an output.
pub fn mask_messages(
    count: usize,
    bits: &[u8],
    pads: &[u8],
    messages: &[u8],
    answers_out: &mut [u8],
) -> OneLength
    ensures { outcome_one result (lent_mask bits.now pads.now messages.now answers_out.new)
        ≡ mask_messages count (lent_mask bits.now pads.now messages.now answers_out.old) }
{
    if let Err(refusal) = check_blocks(32, count, bits, pads, messages, answers_out.len()) {
        return OneLength::refused(refusal);
    }
    write_answers(bits, pads, messages, answers_out);
    OneLength {
        number: ACCEPTED,
        written: 32 * count,
    }
}

// The noise end's messages: the wanted block of each answer, masked again by its pad, 16 bytes an output.
pub fn unmask_messages(
    count: usize,
    wanted: &[u8],
    pads: &[u8],
    answers: &[u8],
    messages_out: &mut [u8],
) -> OneLength
    ensures { outcome_one result (lent_unmask wanted.now pads.now answers.now messages_out.new)
        ≡ unmask_messages count (lent_unmask wanted.now pads.now answers.now messages_out.old) }
{
    if let Err(refusal) = check_blocks(16, count, wanted, pads, answers, messages_out.len()) {
        return OneLength::refused(refusal);
    }
    write_opened(wanted, pads, answers, messages_out);
    OneLength {
        number: ACCEPTED,
        written: 16 * count,
    }
}
