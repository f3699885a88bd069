// A dealing's input, and the tests of a call by document 01's table, in its order.
ghost use Rattle.std.specs.Prelude.{◌≡◌};
ghost use Rattle.answer.specs.Refused.{fault};
ghost use Rattle.answer.specs.Tests.{first_fault};
ghost use Rattle.record.specs.Inner.Lengths.{head_length};
ghost use Rattle.dealing.specs.Inner.Steps.{Measured, measured_tests, deal_number};
ghost use Rattle.dealing_tests.specs.Inner.Lent.{input_of};

use crate::tests::{check_content, check_lengths, check_sizes};
use answer::Refusal;
use record::{Layout, noise_length, scalar_length};

// What a dealing is lent: the sizes, and the slices that they size, tree by tree in three slices, as C lends them. Δ, code key and label are
// slices of any length, as C lends them too: `check_lengths` tests that each has 16 bytes.
#[derive(Clone, Copy)]
pub struct Input<'a> {
    pub layout: Layout,
    pub roots: &'a [u8],
    pub positions: &'a [u32],
    pub values: &'a [u64],
    pub delta: &'a [u8],
    pub code_key: &'a [u8],
    pub label: &'a [u8],
}

// The lengths of both buffers: the tests read no buffer.
#[derive(Clone, Copy)]
pub struct Rooms {
    pub noise: usize,
    pub scalar: usize,
}

// Tests both buffers for room for their records.
#[tactic(auto, using(answer::proofs::Faults::chain))]
fn check_rooms(layout: Layout, rooms: Rooms, positions: &[u32]) -> Result<(), Refusal>
    requires { Measured layout positions.now }
    ensures { fault result ≡ first_fault (measured_tests layout positions.now rooms.noise rooms.scalar) }
{
    if rooms.noise < noise_length(layout, positions) {
        return Err(Refusal::BufferShort);
    }
    if rooms.scalar < scalar_length(layout) {
        return Err(Refusal::BufferShort);
    }
    Ok(())
}

// Tests an input and buffers of these lengths.
pub fn check(input: &Input, rooms: Rooms) -> Result<(), Refusal>
    requires { input.now.layout.body ≡ head_length input.now.layout.depth input.now.layout.branch_bits
        input.now.layout.trees input.now.layout.terms input.now.layout.outputs }
    ensures { fault result ≡ deal_number (input_of input.now) rooms.noise rooms.scalar }
{
    check_sizes(input.layout)?;
    check_lengths(input)?;
    check_content(input)?;
    check_rooms(input.layout, rooms, input.positions)
}
