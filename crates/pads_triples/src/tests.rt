// The call's tests, in document 02's order.
ghost use Rattle.std.specs.Prelude.{◌≡◌};
ghost use Rattle.answer.specs.Refused.{fault};
ghost use Rattle.answer.specs.Tests.{first_fault};
ghost use Rattle.pads.specs.Triples.Call.{triples_tests};

use answer::{Refusal, any_above, is_short, is_times};

// Tests a call with a buffer of `room` bytes.
#[tactic(auto, using(answer::proofs::Faults::chain))]
pub fn check(choices: &[u8], pads: &[u8], pad_pairs: &[u8], room: usize) -> Result<(), Refusal>
    ensures { fault result ≡ first_fault (triples_tests choices.now pads.now pad_pairs.now room) }
{
    if !is_times(pads.len(), 16, choices.len()) {
        return Err(Refusal::BadLength);
    }
    if !is_times(pad_pairs.len(), 32, choices.len()) {
        return Err(Refusal::BadLength);
    }
    if is_short(room, 3, choices.len()) {
        return Err(Refusal::BufferShort);
    }
    if any_above(1, choices) {
        return Err(Refusal::NotElement);
    }
    Ok(())
}
