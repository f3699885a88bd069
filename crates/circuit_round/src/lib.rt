// A round of an end's run of a circuit: opens every AND whose wires are known. What it is passed is what C passes, with a state of 4,096
// bytes, a wire each, which the functions here are lent as they are.
#![tactic(auto)]

ghost use Rattle.std.specs.Prelude.{◌≡◌};
ghost use Rattle.circuit_run.specs.Round.{round_with, rounded, round};

mod accepted;
mod passing;
mod tests;
mod writing;

use accepted::accepted_round;
use answer::ACCEPTED;
use circuit::Circuit;
use circuit_run::{RoundState, Rounded};
use tests::{Round, check};

// One round of an end's run: opens every AND whose wires are known and gives its two bits to send, or writes the outputs of a run
// where none waits.
pub fn round_run(
    role: u8,
    circuit: &[u8],
    shares: &[u8],
    triples: &[u8],
    output: &mut [u8],
    far_bits: &[u8],
    bits_out: &mut [u8],
    state: RoundState,
) -> Rounded
    ensures { rounded result
        (round_with role circuit.now shares.now triples.now output.new far_bits.now bits_out.new)
        ≡ round
        (round_with role circuit.now shares.now triples.now
        output.old far_bits.now bits_out.old) state }
{
    let circuit = match Circuit::read(circuit) {
        Ok(circuit) => circuit,
        Err(refusal) => return Rounded::refused(refusal, state),
    };
    let round = Round {
        circuit,
        role,
        shares,
        triples,
        far_bits,
    };
    if let Err(refusal) = check(round, &state.wires, output.len(), bits_out.len()) {
        return Rounded::refused(refusal, state);
    }
    let mut wires = state.wires;
    let lengths = accepted_round(round, output, bits_out, &mut wires);
    Rounded {
        number: ACCEPTED,
        written: lengths.written,
        bits_written: lengths.bits_written,
        state: RoundState { wires },
    }
}
