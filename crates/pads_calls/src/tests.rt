// The pad calls' tests, by document 01's table and in its order, which is another one for each end past `check_window` (`noise_tests`,
// `scalar_tests`).
ghost use Rattle.std.specs.Prelude.{◌≡◌};
ghost use Rattle.answer.specs.Refused.{fault};
ghost use Rattle.answer.specs.Tests.{first_fault};
ghost use Rattle.pads.specs.Calls.{noise_tests, scalar_tests};
ghost use Rattle.pads_calls.specs.Inner.Tests.{window_tests};

use answer::{Refusal, any_above, is_past, is_short, is_times};

// Where a window ends at the latest.
const WINDOW_END: usize = 32768;

// What both ends test first: the lengths of the blocks and of the end's other slice, and the window.
#[tactic(auto, using(answer::proofs::Faults::chain))]
fn check_window(
    first: usize,
    count: usize,
    blocks: &[u8],
    other: &[u8],
    size: usize,
) -> Result<(), Refusal>
    ensures { fault result ≡ first_fault (window_tests first count blocks.now other.now size) }
{
    if !is_times(blocks.len(), 16, count) {
        return Err(Refusal::BadLength);
    }
    if other.len() != size {
        return Err(Refusal::BadLength);
    }
    if is_past(first, count, WINDOW_END) {
        return Err(Refusal::WindowPastEnd);
    }
    Ok(())
}

// Tests the noise end's call with a buffer of `room` bytes.
pub fn check_noise(
    first: usize,
    count: usize,
    v: &[u8],
    choices: &[u8],
    room: usize,
) -> Result<(), Refusal>
    ensures { fault result ≡ first_fault (noise_tests first count v.now choices.now room) }
{
    check_window(first, count, v, choices, count)?;
    if is_short(room, 16, count) {
        return Err(Refusal::BufferShort);
    }
    if any_above(1, choices) {
        return Err(Refusal::NotElement);
    }
    Ok(())
}

// Tests the scalar end's call with a buffer of `room` bytes.
pub fn check_scalar(
    first: usize,
    count: usize,
    w: &[u8],
    delta: &[u8],
    room: usize,
) -> Result<(), Refusal>
    ensures { fault result ≡ first_fault (scalar_tests first count w.now delta.now room) }
{
    check_window(first, count, w, delta, 16)?;
    if !any_above(0, delta) {
        return Err(Refusal::BadDelta);
    }
    if is_short(room, 32, count) {
        return Err(Refusal::BufferShort);
    }
    Ok(())
}
