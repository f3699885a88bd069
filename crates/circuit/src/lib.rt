// Circuits: reading a circuit with every test, and a second pass over what was accepted.
#![tactic(auto)]

ghost use Rattle.std.specs.Prelude.{◌≡◌};
ghost use Rattle.circuit.specs.Content.{is_and};
ghost use Rattle.circuit.specs.Inner.GateNumbers.{gate_of};

mod accepted;
mod again;
mod gates;
mod passing;
mod reading;

pub use accepted::{Circuit, Gates, OutputWires};
pub use again::known_gate;
pub use reading::read_circuit;

// The numbers of an accepted circuit: inputs, gates, outputs, ANDs, and the places of the first gate and the first output wire.
#[derive(Clone, Copy)]
pub struct Layout {
    pub inputs: usize,
    pub gates: usize,
    pub outputs: usize,
    pub ands: usize,
    pub body: usize,
    pub tail: usize,
}

// A gate, with its two wires or its one wire.
#[derive(Clone, Copy)]
pub enum Gate {
    Xor(usize, usize),
    And(usize, usize),
    Not(usize),
}

impl Gate {
    // Whether the gate is an AND.
    pub fn is_and(self) -> bool
        ensures { result ≡ is_and (gate_of self) }
    {
        match self {
            Gate::And(_, _) => true,
            Gate::Xor(_, _) | Gate::Not(_) => false,
        }
    }
}
