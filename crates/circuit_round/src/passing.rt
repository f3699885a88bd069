// What a round makes of the state: the inputs, then the gates in their order.
ghost use Rattle.std.specs.Prelude.{◌++◌, ◌≡◌, ℕ, ◌≤◌, length, get_or, drop};
ghost use Rattle.circuit_run.specs.Inner.RoundPasses.{CanPass, Passes};
ghost use Rattle.circuit_run.specs.Round.{input_bytes};

use crate::tests::Round;
use crate::writing::put_bits;
use circuit::Gate;
use circuit_gates::{Opening, WAITS, byte_after, input_byte};

// Gives each input that is not known its share.
pub fn take_inputs(shares: &[u8], wires: &mut [u8; 4096])
    requires { (length shares.now ≤ 4096) × (length wires.old ≡ 4096) × ((k : ℕ) → get_or shares.now k 0 ≤ 1) }
    ensures { wires.new ≡ input_bytes shares.now wires.old ++ drop (length shares.now) wires.old }
{
    for (i, share) in shares.iter().enumerate() {
        wires[i] = input_byte(wires[i], *share);
    }
}

// Passes over the gates and puts the bits of those that wait afterwards; how many bits they are. `ands`, `passed` and `place` go on at some
// gates only, so that no `enumerate` counts them.
pub fn pass_gates(round: Round, bits_out: &mut [u8], wires: &mut [u8; 4096]) -> usize
    requires { CanPass round.circuit.source.now round.circuit.layout round.triples.now round.far_bits.now (length bits_out.old) wires.old }
    ensures { Passes round.entry.circuit.source.now round.entry.circuit.layout round.entry.role round.entry.triples.now round.entry.far_bits.now
        bits_out.old wires.old result bits_out.new wires.new }
{
    let Round {
        circuit,
        role,
        triples,
        far_bits,
        ..
    } = round;
    let mut ands: usize = 0;
    let mut passed: usize = 0;
    let mut place: usize = 0;
    for (wire, gate) in circuit.gates() {
        let opening = Opening {
            role,
            triples,
            ands,
            far_bits,
            passed,
        };
        let before = wires[wire];
        let after = byte_after(gate, before, wires, opening);
        if let Gate::And(a, b) = gate {
            place = put_bits(after, wires[a], wires[b], triples, ands, bits_out, place);
            ands += 1;
        }
        wires[wire] = after;
        passed += usize::from(before == WAITS);
    }
    place
}
