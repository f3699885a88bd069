// The dealing call: the tests of its input, then both records.
#![tactic(auto)]

ghost use Rattle.std.specs.Prelude.{◌≡◌};
ghost use Rattle.answer.specs.Outcome.{outcome_two};
ghost use Rattle.dealing.specs.Deal.{lent_deal, deal};
ghost use Rattle.dealing.specs.Input.{input_with};

mod noise;
mod scalar;

use answer::{ACCEPTED, TwoLengths};
use dealing_tests::{Input, Rooms, check};
use noise::write_noise;
use record::{Layout, head_length};
use scalar::write_scalar_part;

// Writes the noise record and the scalar record of a dealing, each to its own buffer. The parameters are those of the C interface.
pub fn deal(
    field: u8,
    depth: usize,
    branch_bits: usize,
    trees: usize,
    terms: usize,
    outputs: usize,
    roots: &[u8],
    positions: &[u32],
    values: &[u64],
    delta: &[u8],
    code_key: &[u8],
    label: &[u8],
    noise_record: &mut [u8],
    scalar_record: &mut [u8],
) -> TwoLengths
    ensures { outcome_two result (lent_deal
        (input_with field depth branch_bits trees terms outputs roots.now positions.now values.now
        delta.now code_key.now label.now)
        noise_record.new scalar_record.new)
        ≡ deal
        (input_with field depth branch_bits trees terms outputs roots.now positions.now values.now
        delta.now code_key.now label.now)
        noise_record.old scalar_record.old }
{
    let input = Input {
        layout: Layout {
            field: field as usize,
            depth,
            branch_bits,
            trees,
            terms,
            outputs,
            body: head_length(depth, branch_bits, trees, terms, outputs),
        },
        roots,
        positions,
        values,
        delta,
        code_key,
        label,
    };
    let rooms = Rooms {
        noise: noise_record.len(),
        scalar: scalar_record.len(),
    };
    if let Err(refusal) = check(&input, rooms) {
        return TwoLengths::refused(refusal);
    }
    let noise_bytes = write_noise(noise_record, &input);
    let scalar_bytes = write_scalar_part(scalar_record, &input);
    TwoLengths {
        number: ACCEPTED,
        first_written: noise_bytes,
        second_written: scalar_bytes,
    }
}
