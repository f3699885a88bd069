// The reading of a circuit, every number whole and tested.
ghost use Rattle.circuit.specs.Answer.{CircuitRead};

use crate::Layout;
use crate::gates::{read_gates, read_wires, read_within};
use answer::Refusal;

// The most wires, and the most outputs.
const MOST_WIRES: usize = 4096;

// The circuit, whole and tested.
pub fn read_circuit(source: &[u8]) -> Result<Layout, Refusal>
    ensures { CircuitRead source.now result }
{
    let (inputs, at) = read_within(source, 0, 1, MOST_WIRES)?;
    let (gates, at) = read_within(source, at, 0, MOST_WIRES - inputs)?;
    let (outputs, body) = read_within(source, at, 1, MOST_WIRES)?;
    let (ands, tail) = read_gates(source, body, gates, inputs)?;
    let end = read_wires(source, tail, outputs, inputs + gates)?;
    if end < source.len() {
        return Err(Refusal::BytesAfter);
    }
    Ok(Layout {
        inputs,
        gates,
        outputs,
        ands,
        body,
        tail,
    })
}
