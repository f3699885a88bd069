// The byte that a round gives a wire. It stays a byte, and no enum: a state is the caller's and may hold any, a known one stays as it is
// also above 3 (`byte_by`), and an AND that waits takes its wires' bytes modulo 2 whether they are known or not (`opened_by`). The 4,096 bytes
// of `wires` are those of C's state, here and in the shares of a step.
ghost use Rattle.std.specs.Prelude.{true, ◌≡◌, ◌≤◌, ◌<◌};
ghost use Rattle.circuit.specs.Content.{is_and};
ghost use Rattle.circuit.specs.Inner.GateNumbers.{gate_of, WiresOf};
ghost use Rattle.circuit_run.specs.Inner.RoundGates.{input_byte, AndHas, opened_by, and_byte_by, xor_byte_by, not_byte_by, byte_by};
ghost use Rattle.circuit_run.specs.Round.{is_known, share_of, known_as};

use crate::shares::{flip, opened_share};
use circuit::Gate;

// The byte while the share is not known, and that of an AND that waits; one of a known share is 2 + share.
const UNKNOWN: u8 = 0;

pub const WAITS: u8 = 1;

// Whether the share of a byte is known.
#[inline(always)]
fn is_known(byte: u8) -> bool
    ensures { result ≡ is_known byte }
{
    2 <= byte
}

// The share of a byte.
#[inline(always)]
pub fn share_of(byte: u8) -> u8
    ensures { result ≡ share_of byte }
{
    byte % 2
}

// The byte of a known share.
#[inline(always)]
fn known_as(share: u8) -> u8
    requires { share ≤ 1 }
    ensures { result ≡ known_as share }
{
    2 + share
}

// The byte of an input: a known one stays, another takes its share.
pub fn input_byte(byte: u8, share: u8) -> u8
    requires { share ≤ 1 }
    ensures { result ≡ input_byte byte share }
{
    if is_known(byte) {
        byte
    } else {
        known_as(share)
    }
}

// What opens an AND at one end: the triple of its number, after those of the ANDs before, and the far bits of its place, after those of
// the ANDs before that waited. C lends triples and far bits as bytes, three and two each, and no far bits for an AND that did not wait: so
// both are read where one opens, and come as whole slices with the counts before.
#[derive(Clone, Copy)]
pub struct Opening<'a> {
    pub role: u8,
    pub triples: &'a [u8],
    pub ands: usize,
    pub far_bits: &'a [u8],
    pub passed: usize,
}

// The byte of an AND that waited, its wires' bytes given.
fn opened_byte(opening: Opening, x: u8, y: u8) -> u8
    requires { AndHas opening.triples.now opening.ands opening.far_bits.now opening.passed }
    ensures { result ≡ known_as (opened_by opening.entry.role x y opening.entry.triples.now opening.entry.ands opening.entry.far_bits.now opening.entry.passed) }
{
    let Opening {
        role,
        triples,
        ands,
        far_bits,
        passed,
    } = opening;
    let place = 2 * passed;
    let first = far_bits[place];
    let second = far_bits[place + 1];
    let share = opened_share(role, share_of(x), share_of(y), triples, ands, first, second);
    known_as(share)
}

// The byte of an AND that is not known, from its own and those of its wires.
fn and_byte(opening: Opening, own: u8, x: u8, y: u8) -> u8
    requires { own ≡ 1 → AndHas opening.triples.now opening.ands opening.far_bits.now opening.passed }
    ensures { result ≡ and_byte_by opening.entry.role own x y opening.entry.triples.now opening.entry.ands opening.entry.far_bits.now opening.entry.passed }
{
    if own == WAITS {
        return opened_byte(opening, x, y);
    }
    if is_known(x) && is_known(y) {
        return WAITS;
    }
    UNKNOWN
}

// The byte of an exclusive or that is not known.
fn xor_byte(x: u8, y: u8) -> u8
    ensures { result ≡ xor_byte_by x y }
{
    if is_known(x) && is_known(y) {
        return known_as(share_of(x) ^ share_of(y));
    }
    UNKNOWN
}

// The byte of a NOT that is not known.
fn not_byte(role: u8, x: u8) -> u8
    ensures { result ≡ not_byte_by role x }
{
    if is_known(x) {
        return known_as(flip(role, share_of(x)));
    }
    UNKNOWN
}

// The byte of a gate, from its own and those of the wires before it: a known one stays.
pub fn byte_after(gate: Gate, own: u8, wires: &[u8; 4096], opening: Opening) -> u8
    requires below { WiresOf (λ w. w < 4096) gate }
    requires has { is_and (gate_of gate) ≡ true → own ≡ 1 → AndHas opening.triples.now opening.ands opening.far_bits.now opening.passed }
    ensures { result ≡ byte_by opening.entry.role (gate_of gate) own wires.now opening.entry.triples.now opening.entry.ands opening.entry.far_bits.now opening.entry.passed }
{
    if is_known(own) {
        return own;
    }
    match gate {
        Gate::Xor(a, b) => xor_byte(wires[a], wires[b]),
        Gate::And(a, b) => and_byte(opening, own, wires[a], wires[b]),
        Gate::Not(a) => not_byte(opening.role, wires[a]),
    }
}
