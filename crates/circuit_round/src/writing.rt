// What a round writes: the bits to send, or the outputs.
ghost use Rattle.std.specs.Prelude.{◌++◌, ◌≡◌, ◌≤◌, length, drop};
ghost use Rattle.circuit.specs.Answer.{content};
ghost use Rattle.circuit.specs.Value.{at_wires};
ghost use Rattle.circuit_run.specs.Inner.RoundGates.{CanPut, place_after, put_bits};
ghost use Rattle.circuit_run.specs.Round.{shares_in};

use circuit::Circuit;
use circuit_gates::{WAITS, share_of};

// Puts the two bits of a gate that waits, its wires' bytes given; the place after them, which is how many bits there are so far. Whole slices
// with counts, as `Opening` has them.
pub fn put_bits(
    byte: u8,
    x: u8,
    y: u8,
    triples: &[u8],
    ands: usize,
    bits_out: &mut [u8],
    place: usize,
) -> usize
    requires { CanPut byte triples.now ands bits_out.old place }
    ensures { (result ≡ place_after byte place) × (bits_out.new ≡ put_bits byte x y triples.now ands place bits_out.old) }
{
    if byte != WAITS {
        return place;
    }
    let at = ands * 3;
    bits_out[place] = share_of(x) ^ triples[at];
    bits_out[place + 1] = share_of(y) ^ triples[at + 1];
    place + 2
}

// Writes the shares of the output wires, of each byte its share; a step's state has the shares themselves (`write_outputs`). As one, the
// two would take a closure for this one word. The room for the outputs is asked by clause, as there.
pub fn write_shares(circuit: Circuit, wires: &[u8; 4096], output: &mut [u8])
    requires { circuit.layout.outputs ≤ length output.old }
    ensures { output.new
        ≡ at_wires (shares_in wires.now) (content circuit.entry.source.now).outputs ++ drop circuit.entry.layout.outputs output.old }
{
    for (i, wire) in circuit.output_wires().enumerate() {
        output[i] = share_of(wires[wire]);
    }
}
