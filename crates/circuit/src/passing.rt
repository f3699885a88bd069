// Reading a circuit to pass over it a second time: its gates, and its output wires.
ghost use Rattle.std.specs.Iterator.{at_most};
ghost use Rattle.circuit.specs.Inner.Opened.{CircuitOpened};
ghost use Rattle.circuit.specs.Inner.Passing.{GatesFrom, GivesGate, OutputsFrom, GivesOutput};

use crate::Gate;
use crate::accepted::{Circuit, Gates, OutputWires};
use crate::again::{known_gate, known_wire};
use crate::reading::read_circuit;
use answer::Refusal;

impl<'a> Circuit<'a> {
    // The circuit of these bytes, whole and tested.
    pub fn read(source: &'a [u8]) -> Result<Self, Refusal>
        ensures { CircuitOpened source.now result }
    {
        let layout = read_circuit(source)?;
        Ok(Circuit { source, layout })
    }

    // Its gates in their order, each with its wire.
    pub fn gates(self) -> Gates<'a>
        ensures { GatesFrom self.entry.source.now self.entry.layout result }
    {
        Gates {
            source: self.source,
            at: self.layout.body,
            wire: self.layout.inputs,
            left: self.layout.gates,
        }
    }

    // Its output wires in their order.
    pub fn output_wires(self) -> OutputWires<'a>
        ensures { OutputsFrom self.entry.source.now self.entry.layout result }
    {
        OutputWires {
            source: self.source,
            at: self.layout.tail,
            limit: self.layout.inputs + self.layout.gates,
            left: self.layout.outputs,
        }
    }
}

impl<'a> Iterator for Gates<'a> {
    type Item = (usize, Gate);

    ghost next_gives = { GivesGate };

    ghost remaining = { λ gates. at_most gates.left };

    #[inline(always)]
    fn next(&mut self) -> Option<(usize, Gate)> {
        let Gates {
            source,
            at,
            wire,
            left,
        } = *self;
        if left == 0 {
            return None;
        }
        let (gate, at) = known_gate(source, at, wire);
        *self = Gates {
            source,
            at,
            wire: wire + 1,
            left: left - 1,
        };
        Some((wire, gate))
    }
}

// As one with the gates', this would take what reads an item, and what that promises, as parameters.
impl<'a> Iterator for OutputWires<'a> {
    type Item = usize;

    ghost next_gives = { GivesOutput };

    ghost remaining = { λ wires. at_most wires.left };

    #[inline(always)]
    fn next(&mut self) -> Option<usize> {
        let OutputWires {
            source,
            at,
            limit,
            left,
        } = *self;
        if left == 0 {
            return None;
        }
        let (wire, at) = known_wire(source, at, limit);
        *self = OutputWires {
            source,
            at,
            limit,
            left: left - 1,
        };
        Some(wire)
    }
}
