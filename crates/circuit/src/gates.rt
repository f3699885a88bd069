// The fields of a circuit: sizes, kinds, wires, gates.
ghost use Rattle.std.specs.Prelude.{◌≡◌, ◌+◌, ◌≤◌};
ghost use Rattle.number.specs.Answer.{number_read};
ghost use Rattle.circuit.specs.Admitted.{most_wires};
ghost use Rattle.circuit.specs.Inner.GateNumbers.{gate_read, wires_read, counted_ands, placed};
ghost use Rattle.circuit.specs.Reading.{read_within, read_wire, read_gate, read_gates, read_wires};

use crate::Gate;
use answer::Refusal;
use number::{read_number, tested};

// The kinds of gates in the bytes of a circuit, from 1 to 3; 2 is an AND. No kind outlives its reading: what is read is a `Gate`.
pub const XOR: usize = 1;

pub const NOT: usize = 3;

// A number from the least to the most, and the place after it.
#[inline(always)]
pub fn read_within(
    source: &[u8],
    at: usize,
    least: usize,
    most: usize,
) -> Result<(usize, usize), Refusal>
    ensures { number_read result ≡ read_within least most source.now at }
{
    tested(read_number(source, at), Refusal::BadCircuit, |n| {
        least <= n && n <= most
    })
}

// A wire below a limit, and the place after it.
#[inline(always)]
pub fn read_wire(source: &[u8], at: usize, limit: usize) -> Result<(usize, usize), Refusal>
    ensures { number_read result ≡ read_wire limit source.now at }
{
    tested(read_number(source, at), Refusal::BadCircuit, |wire| {
        wire < limit
    })
}

// The gate at a wire, and the place after it.
#[inline(always)]
pub fn read_gate(source: &[u8], at: usize, wire: usize) -> Result<(Gate, usize), Refusal>
    ensures { gate_read result ≡ read_gate wire source.now at }
{
    let (kind, at) = read_within(source, at, 1, 3)?;
    let (first, at) = read_wire(source, at, wire)?;
    if kind == NOT {
        return Ok((Gate::Not(first), at));
    }
    let (second, at) = read_wire(source, at, wire)?;
    if kind == XOR {
        return Ok((Gate::Xor(first, second), at));
    }
    Ok((Gate::And(first, second), at))
}

// Gates, the first at wire `inputs`: how many ANDs they are, and the place after them. The place goes by hand here and in `read_wires`:
// a turn may refuse, and the last place is the answer.
pub fn read_gates(
    source: &[u8],
    body: usize,
    gates: usize,
    inputs: usize,
) -> Result<(usize, usize), Refusal>
    requires { inputs + gates ≤ most_wires }
    ensures { number_read result ≡ counted_ands 0 (read_gates gates inputs source.now body) }
{
    let mut at = body;
    let mut ands: usize = 0;
    for i in 0..gates {
        let (gate, next) = read_gate(source, at, inputs + i)?;
        ands += usize::from(gate.is_and());
        at = next;
    }
    Ok((ands, at))
}

// Wires below a limit: the place after them.
pub fn read_wires(source: &[u8], tail: usize, count: usize, limit: usize) -> Result<usize, Refusal>
    ensures { wires_read result ≡ placed (read_wires count limit source.now tail) }
{
    let mut at = tail;
    for _ in 0..count {
        let (_, next) = read_wire(source, at, limit)?;
        at = next;
    }
    Ok(at)
}
