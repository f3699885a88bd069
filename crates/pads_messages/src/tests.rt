// The calls' tests, in document 02's order.
ghost use Rattle.std.specs.Prelude.{◌≡◌, ◌≤◌};
ghost use Rattle.answer.specs.Refused.{fault};
ghost use Rattle.answer.specs.Tests.{first_fault};
ghost use Rattle.pads.specs.Messages.Calls.{correction_tests};
ghost use Rattle.pads_messages.specs.Inner.Tests.{blocks_tests};

use answer::{Refusal, any_above, is_short, is_times};

// How many outputs a batch has at most.
const LARGEST_BATCH: usize = 4096;

// Tests the correction bits with a buffer of `room` bytes.
#[tactic(auto, using(answer::proofs::Faults::chain))]
pub fn check_correction(
    count: usize,
    choices: &[u8],
    wanted: &[u8],
    room: usize,
) -> Result<(), Refusal>
    ensures { fault result ≡ first_fault (correction_tests count choices.now wanted.now room) }
{
    if count > LARGEST_BATCH {
        return Err(Refusal::BadLength);
    }
    if choices.len() != count {
        return Err(Refusal::BadLength);
    }
    if wanted.len() != count {
        return Err(Refusal::BadLength);
    }
    if any_above(1, choices) {
        return Err(Refusal::NotElement);
    }
    if any_above(1, wanted) {
        return Err(Refusal::NotElement);
    }
    if room < count {
        return Err(Refusal::BufferShort);
    }
    Ok(())
}

// Tests the answers, of 32 bytes of pads an output, or their opening, of 16, with a buffer of `room` bytes.
#[tactic(auto, using(answer::proofs::Faults::chain))]
pub fn check_blocks(
    width: usize,
    count: usize,
    bits: &[u8],
    pads: &[u8],
    blocks: &[u8],
    room: usize,
) -> Result<(), Refusal>
    requires { 1 ≤ width }
    ensures { fault result ≡ first_fault (blocks_tests width count bits.now pads.now blocks.now room) }
{
    if count > LARGEST_BATCH {
        return Err(Refusal::BadLength);
    }
    if bits.len() != count {
        return Err(Refusal::BadLength);
    }
    if !is_times(pads.len(), width, count) {
        return Err(Refusal::BadLength);
    }
    if !is_times(blocks.len(), 32, count) {
        return Err(Refusal::BadLength);
    }
    if any_above(1, bits) {
        return Err(Refusal::NotElement);
    }
    if is_short(room, width, count) {
        return Err(Refusal::BufferShort);
    }
    Ok(())
}
