// What a record's head says, so that an end that holds only bytes can size its buffers and tell which dealing it is of.
#![tactic(auto)]

ghost use Rattle.std.specs.Prelude.{◌≡◌, ◌+◌, ◌≤◌, ◌<◌, length};
ghost use Rattle.answer.specs.Refused.{number_of};
ghost use Rattle.record.specs.Answer.{head_of};
ghost use Rattle.record.specs.Inner.Ends.{end_byte};
ghost use Rattle.record.specs.Reading.{block_at, read_noise, read_scalar};
ghost use Rattle.record_describe.specs.Describe.{described_head, refused, said, description, describe};

use answer::{ACCEPTED, Refusal};
use field::element_width;
use record::{End, Layout, leaves};
use record_reading::{read_noise, read_scalar};

// The answer, as the C header has it, whose structs keep the number beside the values: the number; the end, the field and the sizes of the
// record; N, and the words of an element; the label and the code key. A refused record has zeros beside its number.
#[repr(C)]
#[derive(Clone, Copy)]
pub struct Described {
    pub number: u32,
    pub end: u8,
    pub field: u8,
    pub depth: usize,
    pub branch_bits: usize,
    pub trees: usize,
    pub terms: usize,
    pub outputs: usize,
    pub leaves: usize,
    pub element_words: usize,
    pub label: [u8; 16],
    pub code_key: [u8; 16],
}

impl Described {
    // The answer for a refused record.
    fn refused(refusal: Refusal) -> Described
        ensures { result ≡ refused (number_of refusal) }
    {
        Described {
            number: refusal.number(),
            end: 0,
            field: 0,
            depth: 0,
            branch_bits: 0,
            trees: 0,
            terms: 0,
            outputs: 0,
            leaves: 0,
            element_words: 0,
            label: [0u8; 16],
            code_key: [0u8; 16],
        }
    }
}

// The 16 bytes at a place. By `try_from` of a slice they would come in a `Result` whose error never comes.
fn sixteen_at(source: &[u8], at: usize) -> [u8; 16]
    requires { at + 16 ≤ length source.now }
    ensures { result ≡ block_at source.now at }
{
    let mut block = [0u8; 16];
    block.copy_from_slice(&source[at..at + 16]);
    block
}

// The answer for an accepted record of an end.
fn accepted(end: End, source: &[u8], layout: Layout) -> Described
    requires { (layout.depth ≤ 16) × (layout.field < 256) × (32 ≤ layout.body) × (layout.body ≤ length source.now) }
    ensures { result ≡ described_head (end_byte end) (head_of source.now layout) }
{
    Described {
        number: ACCEPTED,
        end: end.byte(),
        field: layout.field as u8,
        depth: layout.depth,
        branch_bits: layout.branch_bits,
        trees: layout.trees,
        terms: layout.terms,
        outputs: layout.outputs,
        leaves: leaves(layout.depth),
        element_words: element_width(layout.field),
        label: sixteen_at(source, layout.body - 16),
        code_key: sixteen_at(source, layout.body - 32),
    }
}

// The answer for a noise record. Each end has its reader and its definition, so one function would take both as parameters.
fn noise_head(source: &[u8]) -> Described
    ensures { result ≡ said 1 (λ P. P.head) (read_noise source.now) }
{
    match read_noise(source) {
        Ok(layout) => accepted(End::Noise, source, layout),
        Err(refusal) => Described::refused(refusal),
    }
}

// The answer for a scalar record.
fn scalar_head(source: &[u8]) -> Described
    ensures { result ≡ said 2 (λ P. P.head) (read_scalar source.now) }
{
    match read_scalar(source) {
        Ok(layout) => accepted(End::Scalar, source, layout),
        Err(refusal) => Described::refused(refusal),
    }
}

// The head of a record that its end would accept, or that record's number. The end byte says whose tests apply.
pub fn describe(source: &[u8]) -> Described
    ensures { description result source.now ≡ describe source.now }
{
    let Some(byte) = source.first() else {
        return Described::refused(Refusal::RecordEnds);
    };
    match End::try_from(*byte) {
        Ok(End::Noise) => noise_head(source),
        Ok(End::Scalar) => scalar_head(source),
        Err(wrong_end) => Described::refused(wrong_end),
    }
}
