// The tests of a round, once its circuit is read.
ghost use Rattle.std.specs.Prelude.{◌≡◌, ◌+◌, ◌≤◌};
ghost use Rattle.answer.specs.Refused.{fault};
ghost use Rattle.answer.specs.Tests.{first_fault};
ghost use Rattle.circuit.specs.Admitted.{most_wires};
ghost use Rattle.circuit_run.specs.Inner.RoundTests.{byte_tests, asked_tests};
ghost use Rattle.circuit_run.specs.Inner.RoundPasses.{waiting_by};

use answer::{Refusal, any_above, is_short, is_times};
use circuit::{Circuit, Layout};
use circuit_gates::{WAITS, is_role};

// What a round is lent to read: its circuit, once read, the role, this end's shares and triples, and the far bits.
#[derive(Clone, Copy)]
pub struct Round<'a> {
    pub circuit: Circuit<'a>,
    pub role: u8,
    pub shares: &'a [u8],
    pub triples: &'a [u8],
    pub far_bits: &'a [u8],
}

// How many gates wait, counted by a `for`: no index is.
fn waiting_gates(wires: &[u8; 4096], layout: Layout) -> usize
    requires { layout.inputs + layout.gates ≤ most_wires }
    ensures { result ≡ waiting_by layout wires.now }
{
    let mut count: usize = 0;
    for byte in &wires[layout.inputs..layout.inputs + layout.gates] {
        count += usize::from(*byte == WAITS);
    }
    count
}

// Tests the bytes and the role of a round. Here, in `check` and in a step's a line is a test of the page, in its order.
#[tactic(auto, using(answer::proofs::Faults::chain))]
fn check_bytes(round: Round) -> Result<(), Refusal>
    ensures { fault result
        ≡ first_fault (byte_tests round.entry.circuit.layout.ands round.entry.role round.entry.shares.now round.entry.triples.now round.entry.far_bits.now) }
{
    if any_above(1, round.shares) {
        return Err(Refusal::NotElement);
    }
    if any_above(1, round.triples) {
        return Err(Refusal::NotElement);
    }
    if any_above(1, round.far_bits) {
        return Err(Refusal::NotElement);
    }
    if is_short(round.triples.len(), 3, round.circuit.layout.ands) {
        return Err(Refusal::TooFewTriples);
    }
    if !is_role(round.role) {
        return Err(Refusal::WrongEnd);
    }
    Ok(())
}

// Tests a round on a state of these wires, with room for an output and for bits of so many bytes.
#[tactic(auto, using(answer::proofs::Faults::chain))]
pub fn check(round: Round, wires: &[u8; 4096], room: usize, bits_room: usize) -> Result<(), Refusal>
    ensures { fault result
        ≡ first_fault (asked_tests round.entry.circuit.layout (waiting_by round.entry.circuit.layout wires.now) round.entry.role round.entry.shares.now round.entry.triples.now round.entry.far_bits.now room bits_room) }
{
    let layout = round.circuit.layout;
    let waits = waiting_gates(wires, layout);
    if round.shares.len() != layout.inputs {
        return Err(Refusal::BadLength);
    }
    if round.triples.len() % 3 != 0 {
        return Err(Refusal::BadLength);
    }
    if !is_times(round.far_bits.len(), 2, waits) {
        return Err(Refusal::BadLength);
    }
    if room < layout.outputs {
        return Err(Refusal::BufferShort);
    }
    if is_short(bits_room, 2, layout.ands) {
        return Err(Refusal::BufferShort);
    }
    check_bytes(round)
}
