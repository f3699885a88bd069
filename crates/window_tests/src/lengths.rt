// The tests of a window by lengths alone: 3, 7 and 13.
ghost use Rattle.std.specs.Prelude.{◌≡◌, ◌≤◌};
ghost use Rattle.answer.specs.Refused.{fault};
ghost use Rattle.answer.specs.Tests.{first_fault};
ghost use Rattle.window.specs.Inner.Numbers.{length_tests};

use crate::head::vector_words;
use answer::{Refusal, is_past, is_short};
use code::Window;
use field::element_width;
use record::{Layout, leaves};

// The tests 3, 7 and 13, from the lengths of the noise and of a vector of elements, and of the buffers for a window of them. The
// scalar end, which has neither noise nor u, gives N and the window's count, which meet both tests (`elements-alone`): with an `Option` of
// both lengths the tests would no longer be one list, a line a test.
#[tactic(auto, using(answer::proofs::Faults::chain))]
pub fn check_window(
    layout: Layout,
    noise: usize,
    vector: usize,
    window: Window,
    u_room: usize,
    room: usize,
) -> Result<(), Refusal>
    requires { layout.depth ≤ 16 }
    ensures { fault result ≡ first_fault (length_tests layout noise vector window u_room room) }
{
    if noise != leaves(layout.depth) {
        return Err(Refusal::BadLength);
    }
    if vector != vector_words(layout) {
        return Err(Refusal::BadLength);
    }
    if is_past(window.first, window.count, layout.outputs) {
        return Err(Refusal::WindowPastEnd);
    }
    if u_room < window.count {
        return Err(Refusal::BufferShort);
    }
    if is_short(room, element_width(layout.field), window.count) {
        return Err(Refusal::BufferShort);
    }
    Ok(())
}
