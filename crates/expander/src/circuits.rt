// Running and describing a circuit.
ghost use Rattle.std.specs.Prelude.{◌≡◌, [], ◌∷◌};
ghost use Rattle.page.specs.Document01 as document;
ghost use Rattle.page_two.specs.Document02 as document02;

use circuit_describe::DescribedCircuit;
use circuit_run::{RoundState, Rounded, StepState, Stepped};

// One step of an end's run of a circuit, on the state that the step before left.
#[unsafe(no_mangle)]
pub extern "C" fn expander_circuit_step(
    role: u8,
    circuit: &[u8],
    shares: &[u8],
    triples: &[u8],
    output: &mut [u8],
    far_first: u8,
    far_second: u8,
    state: StepState,
) -> Stepped
    ensures { (
      document.returned result.number (result.written ∷ [])
          (circuit.now ∷ shares.now ∷ triples.now ∷ (far_first ∷ far_second ∷ []) ∷ [])
          (output.new ∷ (result.first_bit ∷ result.second_bit ∷ []) ∷ []),
      document02.step_state result.state.phase result.state.gate result.state.wires,
    )
        ≡ document02.step
        (record {
          role = role;
          circuit = circuit.now;
          shares = shares.now;
          triples = triples.now;
          far = far_first ∷ far_second ∷ [];
          output = output.old;
          bits = [];
        })
        (document02.step_state state.phase state.gate state.wires) }
{
    circuit_step::step_run(
        role, circuit, shares, triples, output, far_first, far_second, state,
    )
}

// One round of an end's run of a circuit, on the state that the round before left.
#[unsafe(no_mangle)]
pub extern "C" fn expander_circuit_round(
    role: u8,
    circuit: &[u8],
    shares: &[u8],
    triples: &[u8],
    output: &mut [u8],
    far_bits: &[u8],
    bits_out: &mut [u8],
    state: RoundState,
) -> Rounded
    ensures { (
      document.returned result.number (result.written ∷ result.bits_written ∷ [])
          (circuit.now ∷ shares.now ∷ triples.now ∷ far_bits.now ∷ [])
          (output.new ∷ bits_out.new ∷ []),
      result.state.wires,
    )
        ≡ document02.round
        (record {
          role = role;
          circuit = circuit.now;
          shares = shares.now;
          triples = triples.now;
          far = far_bits.now;
          output = output.old;
          bits = bits_out.old;
        })
        state.wires }
{
    circuit_round::round_run(
        role, circuit, shares, triples, output, far_bits, bits_out, state,
    )
}

// What a circuit is: its inputs, gates, outputs, ANDs and rounds, or the number that it is refused with.
#[unsafe(no_mangle)]
pub extern "C" fn expander_describe_circuit(circuit: &[u8]) -> DescribedCircuit
    ensures { document.returned result.number (result.inputs ∷ result.gates ∷ result.outputs ∷ result.ands ∷ result.rounds ∷ []) (circuit.now ∷ []) []
        ≡ document02.describe_circuit circuit.now }
{
    circuit_describe::describe_circuit(circuit)
}
