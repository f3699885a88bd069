// The share that a gate makes of its wires' shares, at one end.
ghost use Rattle.std.specs.Prelude.{◌≡◌, ◌+◌, ◌*◌, ◌<◌, length};
ghost use Rattle.circuit_run.specs.Inner.Places.{opened_with, given_and};
ghost use Rattle.circuit_run.specs.Step.{flipped, is_role};

use circuit_run::{Asked, ROLE_NOISE, ROLE_SCALAR, Spot};

// Whether the role is 1 or 2.
pub fn is_role(role: u8) -> bool
    ensures { result ≡ is_role role }
{
    role == ROLE_NOISE || role == ROLE_SCALAR
}

// NOT at one end.
pub fn flip(role: u8, x: u8) -> u8
    ensures { result ≡ flipped role x }
{
    if role == ROLE_NOISE { x ^ 1 } else { x }
}

// The share of an AND that waits, its wires' shares given: it takes the triple of its number and its two far bits.
pub fn opened_share(
    role: u8,
    x: u8,
    y: u8,
    triples: &[u8],
    ands: usize,
    far_first: u8,
    far_second: u8,
) -> u8
    requires { ands * 3 + 2 < length triples.now }
    ensures { result ≡ opened_with role x y triples.now ands far_first far_second }
{
    // C lends triples as bytes, three each, and the far bits of a step as two numbers; ARCHITECTURE.md names this function, so it takes them
    // so.
    let at = ands * 3;
    let a = triples[at];
    let b = triples[at + 1];
    let c = triples[at + 2];
    let d = x ^ a ^ far_first;
    let e = y ^ b ^ far_second;
    let sum = c ^ (d & b) ^ (e & a);
    let both = d & e;
    if role == ROLE_NOISE { sum ^ both } else { sum }
}

// Gives the AND that a run waits at its share.
pub fn give_and(asked: Asked, spot: Spot, wire: usize, triples: &[u8], wires: &mut [u8; 4096])
    requires { (spot.first_wire < 4096) × (spot.second_wire < 4096) × (spot.ands * 3 + 2 < length triples.now) × (wire < 4096) }
    ensures { wires.new ≡ given_and asked spot wire triples.now wires.old }
{
    let x = spot.first_wire;
    let y = spot.second_wire;
    wires[wire] = opened_share(
        asked.role,
        wires[x],
        wires[y],
        triples,
        spot.ands,
        asked.far_first,
        asked.far_second,
    );
}
