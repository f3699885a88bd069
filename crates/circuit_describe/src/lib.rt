// What a circuit is, so that a run's triples, messages and buffers are known before it starts.
#![tactic(auto)]

ghost use Rattle.std.specs.Prelude.{◌≡◌, ◌≤◌, ◌<◌, slice_index};
ghost use Rattle.answer.specs.Refused.{number_of};
ghost use Rattle.circuit.specs.Answer.{content};
ghost use Rattle.circuit.specs.Inner.GateNumbers.{gate_of, WiresOf};
ghost use Rattle.circuit.specs.Levels.{gate_level, depth};
ghost use Rattle.circuit_describe.specs.Describe.{refused, description_of, describe_circuit};

use answer::{ACCEPTED, Refusal};
use circuit::{Circuit, Gate};

// The answer, in which C reads the number beside the values: how many inputs, gates, outputs, ANDs and rounds the circuit has. A
// refused circuit has zeros beside its number.
#[repr(C)]
#[derive(Clone, Copy)]
pub struct DescribedCircuit {
    pub number: u32,
    pub inputs: usize,
    pub gates: usize,
    pub outputs: usize,
    pub ands: usize,
    pub rounds: usize,
}

impl DescribedCircuit {
    // The answer for a refused circuit.
    fn refused(refusal: Refusal) -> DescribedCircuit
        ensures { result ≡ refused (number_of refusal) }
    {
        DescribedCircuit {
            number: refusal.number(),
            inputs: 0,
            gates: 0,
            outputs: 0,
            ands: 0,
            rounds: 0,
        }
    }
}

// The level of a gate, from those of its wires.
fn level_of(gate: Gate, levels: &[u16; 4096]) -> u16
    requires { WiresOf (λ w. (w < 4096) × (slice_index levels.now w ≤ 4096)) gate }
    ensures { result ≡ gate_level (gate_of gate) levels.now }
{
    match gate {
        Gate::Xor(a, b) => levels[a].max(levels[b]),
        Gate::And(a, b) => 1 + levels[a].max(levels[b]),
        Gate::Not(a) => levels[a],
    }
}

// The greatest level of any wire.
fn depth_of(circuit: Circuit) -> usize
    ensures { (result ≡ depth (content circuit.entry.source.now)) × (result ≤ 4096) }
{
    // as many as a circuit has wires at most: memory is fixed
    let mut levels = [0u16; 4096];
    let mut most: u16 = 0;
    for (wire, gate) in circuit.gates() {
        let level = level_of(gate, &levels);
        levels[wire] = level;
        most = most.max(level);
    }
    usize::from(most)
}

// What a circuit is, or the number that it is refused with.
pub fn describe_circuit(source: &[u8]) -> DescribedCircuit
    ensures { description_of result source.now ≡ describe_circuit source.now }
{
    match Circuit::read(source) {
        Ok(circuit) => DescribedCircuit {
            number: ACCEPTED,
            inputs: circuit.layout.inputs,
            gates: circuit.layout.gates,
            outputs: circuit.layout.outputs,
            ands: circuit.layout.ands,
            rounds: depth_of(circuit) + 1,
        },
        Err(refusal) => DescribedCircuit::refused(refusal),
    }
}
