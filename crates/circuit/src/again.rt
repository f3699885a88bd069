// The second pass over a circuit that was accepted.
ghost use Rattle.std.specs.Prelude.{true, ◌≡◌, ◌<◌};
ghost use Rattle.number.specs.Reading.{Whole};
ghost use Rattle.number.specs.Inner.Known.{is_whole};
ghost use Rattle.circuit.specs.Inner.GateNumbers.{gate_of, WiresOf};
ghost use Rattle.circuit.specs.Reading.{read_wire, read_gate};

use crate::Gate;
use crate::gates::{NOT, XOR};
use number::known_number;

// The gate at a place of an accepted circuit, at a wire, and the place after it. It stays beside `read_gate`, since it tests no kind and
// no wire again: by `read_gate` a round takes 7 % more instructions.
pub fn known_gate(source: &[u8], at: usize, wire: usize) -> (Gate, usize)
    requires { is_whole (read_gate wire source.now at) ≡ true }
    ensures gate { Whole (gate_of result.0, result.1) ≡ read_gate wire source.now at }
    ensures below { WiresOf (λ w. w < wire) result.0 }
{
    let (kind, at) = known_number(source, at);
    let (first, at) = known_number(source, at);
    if kind == NOT {
        return (Gate::Not(first), at);
    }
    let (second, at) = known_number(source, at);
    if kind == XOR {
        return (Gate::Xor(first, second), at);
    }
    (Gate::And(first, second), at)
}

// The wire at a place of an accepted circuit, below a limit, and the place after it; beside `read_wire`, since it tests no wire again.
pub fn known_wire(source: &[u8], at: usize, limit: usize) -> (usize, usize)
    requires { is_whole (read_wire limit source.now at) ≡ true }
    ensures wire { Whole result ≡ read_wire limit source.now at }
    ensures below { result.0 < limit }
{
    known_number(source, at)
}
