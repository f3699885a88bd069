// The tests of a step, once its circuit is read.
ghost use Rattle.std.specs.Prelude.{◌≡◌, IfOk};
ghost use Rattle.answer.specs.Refused.{fault};
ghost use Rattle.answer.specs.Tests.{first_fault};
ghost use Rattle.circuit.specs.Answer.{content};
ghost use Rattle.circuit_run.specs.Inner.Places.{Tested};
ghost use Rattle.circuit_run.specs.Inner.StepTests.{asked_tests};
ghost use Rattle.circuit_run.specs.Step.{far_admitted, state_admitted};

use crate::waiting::run_of;
use answer::{Refusal, any_above, is_short};
use circuit::Circuit;
use circuit_gates::is_role;
use circuit_run::{Asked, Run, StepState};

// What a step is lent to read: its circuit, once read, the numbers that it gets, and this end's shares and triples.
#[derive(Clone, Copy)]
pub struct Step<'a> {
    pub circuit: Circuit<'a>,
    pub asked: Asked,
    pub shares: &'a [u8],
    pub triples: &'a [u8],
}

// Whether the far bits of a run that waits are bits.
fn are_far_bits(waits: bool, far_first: u8, far_second: u8) -> bool
    ensures { result ≡ far_admitted waits far_first far_second }
{
    !waits || far_first <= 1 && far_second <= 1
}

// The run of a step on a state, with room for an output of `room` bytes.
#[tactic(auto, using(answer::proofs::Faults::chain))]
pub fn check(step: Step, state: &StepState, room: usize) -> Result<Run, Refusal>
    ensures number { fault result
        ≡ first_fault (asked_tests step.entry.circuit.layout (state_admitted (content step.entry.circuit.source.now) state.now.phase state.now.gate) step.entry.asked step.entry.shares.now step.entry.triples.now room) }
    ensures tested { IfOk result (λ run. Tested step.entry.circuit.source.now step.entry.circuit.layout run step.entry.shares.now step.entry.triples.now room state.now.phase state.now.gate) }
{
    let Step {
        circuit,
        asked,
        shares,
        triples,
    } = step;
    let layout = circuit.layout;
    if shares.len() != layout.inputs {
        return Err(Refusal::BadLength);
    }
    if triples.len() % 3 != 0 {
        return Err(Refusal::BadLength);
    }
    if room < layout.outputs {
        return Err(Refusal::BufferShort);
    }
    if any_above(1, shares) {
        return Err(Refusal::NotElement);
    }
    if any_above(1, triples) {
        return Err(Refusal::NotElement);
    }
    if !are_far_bits(asked.waits, asked.far_first, asked.far_second) {
        return Err(Refusal::NotElement);
    }
    if is_short(triples.len(), 3, layout.ands) {
        return Err(Refusal::TooFewTriples);
    }
    let Some(run) = run_of(circuit, state.phase, state.gate as usize) else {
        return Err(Refusal::BadCircuit);
    };
    if !is_role(asked.role) {
        return Err(Refusal::WrongEnd);
    }
    Ok(run)
}
