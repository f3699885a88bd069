// A step of an end's run of a circuit: up to the next AND, or to the end. What it is passed is what C passes: the far bits as two numbers,
// and a state of 4,096 bytes, a wire each, which the functions here are lent as they are.
#![tactic(auto)]

ghost use Rattle.std.specs.Prelude.{◌≡◌};
ghost use Rattle.circuit_run.specs.Step.{lent_with, stepped, step};

mod accepted;
mod running;
mod tests;
mod waiting;

use accepted::accepted_step;
use circuit::Circuit;
use circuit_run::{Asked, RUN_WAITS, StepState, Stepped};
use tests::{Step, check};

// One step of an end's run: up to the next AND, whose two bits to send it gives, or to the end, where it writes the outputs.
pub fn step_run(
    role: u8,
    circuit: &[u8],
    shares: &[u8],
    triples: &[u8],
    output: &mut [u8],
    far_first: u8,
    far_second: u8,
    state: StepState,
) -> Stepped
    ensures { stepped result (lent_with role circuit.now shares.now triples.now output.new far_first far_second)
        ≡ step (lent_with role circuit.now shares.now triples.now output.old far_first far_second) state }
{
    let circuit = match Circuit::read(circuit) {
        Ok(circuit) => circuit,
        Err(refusal) => return Stepped::refused(refusal, state),
    };
    let asked = Asked {
        role,
        waits: state.phase == RUN_WAITS,
        far_first,
        far_second,
    };
    let step = Step {
        circuit,
        asked,
        shares,
        triples,
    };
    match check(step, &state, output.len()) {
        Ok(run) => accepted_step(step, run, output, state),
        Err(refusal) => Stepped::refused(refusal, state),
    }
}
