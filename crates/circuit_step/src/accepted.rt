// A step that has passed every test.
ghost use Rattle.std.specs.Prelude.{◌≡◌, ◌++◌, ◌≤◌, length, drop};
ghost use Rattle.circuit.specs.Answer.{content};
ghost use Rattle.circuit.specs.Value.{at_wires};
ghost use Rattle.circuit_run.specs.Inner.Places.{Tested, stepped_with, accepted_on};
ghost use Rattle.circuit_run.specs.Step.{lent_with, stepped};

use crate::running::{proceed, write_outputs};
use crate::tests::Step;
use answer::ACCEPTED;
use circuit::Circuit;
use circuit_run::{RUN_FINISHED, RUN_WAITS, Run, StepState, Stepped};

// A finished run: writes the outputs.
fn finish(circuit: Circuit, output: &mut [u8], state: StepState) -> Stepped
    requires { circuit.layout.outputs ≤ length output.old }
    ensures { (result ≡ stepped_with 0 circuit.entry.layout.outputs 0 0 state)
        × (output.new
        ≡ at_wires state.wires (content circuit.entry.source.now).outputs ++ drop circuit.entry.layout.outputs output.old) }
{
    write_outputs(circuit, &state.wires, output);
    Stepped {
        number: ACCEPTED,
        written: circuit.layout.outputs,
        first_bit: 0,
        second_bit: 0,
        state,
    }
}

// Runs to the next AND and gives its two bits, or to the end and writes the outputs.
pub fn accepted_step(step: Step, run: Run, output: &mut [u8], state: StepState) -> Stepped
    requires { Tested step.circuit.source.now step.circuit.layout run step.shares.now step.triples.now (length output.old) state.phase state.gate }
    ensures { stepped result
        (lent_with step.entry.asked.role step.entry.circuit.source.now step.entry.shares.now step.entry.triples.now output.new
        step.entry.asked.far_first step.entry.asked.far_second)
        ≡ accepted_on (content step.entry.circuit.source.now)
        (lent_with step.entry.asked.role step.entry.circuit.source.now step.entry.shares.now step.entry.triples.now output.old
        step.entry.asked.far_first step.entry.asked.far_second) state }
{
    let Step {
        circuit,
        triples,
        ..
    } = step;
    let Run::Going(waiting) = run else {
        return finish(circuit, output, state);
    };
    let mut wires = state.wires;
    let reached = proceed(step, waiting, &mut wires);
    let Some(spot) = reached else {
        let last = StepState {
            phase: RUN_FINISHED,
            gate: circuit.layout.gates as u32,
            wires,
        };
        return finish(circuit, output, last);
    };
    let at = spot.ands * 3;
    Stepped {
        number: ACCEPTED,
        written: 0,
        first_bit: wires[spot.first_wire] ^ triples[at],
        second_bit: wires[spot.second_wire] ^ triples[at + 1],
        state: StepState {
            phase: RUN_WAITS,
            gate: spot.gate as u32,
            wires,
        },
    }
}
