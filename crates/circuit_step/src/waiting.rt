// Where a run stands in its circuit.
ghost use Rattle.std.specs.Prelude.{◌≡◌, ◌≤◌};
ghost use Rattle.circuit.specs.Answer.{content};
ghost use Rattle.circuit_run.specs.Inner.Places.{Left, IsAnd, Admits};
ghost use Rattle.circuit_run.specs.Step.{ands_before};

use circuit::{Circuit, Gate, known_gate};
use circuit_run::{Place, RUN_FINISHED, RUN_FRESH, RUN_WAITS, Run, Spot};

// The place of a gate, or after the last. It keeps the place of each gate by hand, since it gives the last: the iterator `Gates` keeps
// its own.
fn place_of(circuit: Circuit, gate: usize) -> Place
    requires { gate ≤ circuit.layout.gates }
    ensures { Left circuit.entry.source.now circuit.entry.layout.inputs gate result.at
        × (result.ands ≡ ands_before (content circuit.entry.source.now) gate) }
{
    let Circuit { source, layout } = circuit;
    let mut at = layout.body;
    let mut ands: usize = 0;
    for i in 0..gate {
        let (passed, next) = known_gate(source, at, layout.inputs + i);
        ands += usize::from(passed.is_and());
        at = next;
    }
    Place { gate, at, ands }
}

// The AND at a gate, where there is one.
fn and_at(circuit: Circuit, gate: usize) -> Option<Spot>
    ensures { IsAnd circuit.entry.source.now circuit.entry.layout gate result }
{
    let Circuit { source, layout } = circuit;
    if layout.gates <= gate {
        return None;
    }
    let Place { at, ands, .. } = place_of(circuit, gate);
    let (found, next) = known_gate(source, at, layout.inputs + gate);
    let Gate::And(first_wire, second_wire) = found else {
        return None;
    };
    Some(Spot {
        gate,
        first_wire,
        second_wire,
        ands,
        next,
    })
}

// The run of a state of a phase and a gate, where the state is admitted.
pub fn run_of(circuit: Circuit, phase: u32, gate: usize) -> Option<Run>
    ensures { Admits circuit.entry.source.now circuit.entry.layout phase gate result }
{
    match phase {
        RUN_FRESH => Some(Run::Going(None)),
        RUN_WAITS => {
            let spot = and_at(circuit, gate)?;
            Some(Run::Going(Some(spot)))
        }
        RUN_FINISHED => Some(Run::Finished),
        _ => None,
    }
}
