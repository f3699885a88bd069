// A round that has passed every test.
ghost use Rattle.std.specs.Prelude.{◌≡◌, length};
ghost use Rattle.circuit.specs.Answer.{content};
ghost use Rattle.circuit_run.specs.Inner.RoundPasses.{Tested, accepted_on};
ghost use Rattle.circuit_run.specs.Round.{round_with, round_outcome, state_with};

use crate::passing::{pass_gates, take_inputs};
use crate::tests::Round;
use crate::writing::write_shares;

// The outputs and the bits that a round wrote. One of both is 0, and C reads both (`Rounded`): an enum would be taken apart to them at once.
#[derive(Clone, Copy)]
pub struct Lengths {
    pub written: usize,
    pub bits_written: usize,
}

// Takes the wires on by a round, and gives the bits to send, or writes the outputs of a run where none waits.
pub fn accepted_round(
    round: Round,
    output: &mut [u8],
    bits_out: &mut [u8],
    wires: &mut [u8; 4096],
) -> Lengths
    requires { Tested round.circuit.layout round.shares.now round.triples.now (length output.old) round.far_bits.now (length bits_out.old) wires.old }
    ensures { round_outcome 0 result.written result.bits_written (state_with wires.new)
        (round_with round.entry.role round.entry.circuit.source.now round.entry.shares.now round.entry.triples.now
        output.new round.entry.far_bits.now bits_out.new)
        ≡ accepted_on (content round.entry.circuit.source.now)
        (round_with round.entry.role round.entry.circuit.source.now round.entry.shares.now round.entry.triples.now
        output.old round.entry.far_bits.now bits_out.old) wires.old }
{
    take_inputs(round.shares, wires);
    let bits = pass_gates(round, bits_out, wires);
    if bits == 0 {
        write_shares(round.circuit, wires, output);
        return Lengths {
            written: round.circuit.layout.outputs,
            bits_written: 0,
        };
    }
    Lengths {
        written: 0,
        bits_written: bits,
    }
}
