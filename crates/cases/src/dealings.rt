// Dealings, and the records that they give.
ghost use Rattle.std.specs.Prelude.{◌≡◌, ◌≤◌, length, take};

use answer::TwoLengths;

// The roots of two trees, and others.
const ROOTS: [u8; 32] = *b"\
    \x01\x01\x01\x01\x01\x01\x01\x01\x01\x01\x01\x01\x01\x01\x01\x01\
    \x64\x01\x01\x01\x01\x01\x01\x01\x01\x01\x01\x01\x01\x01\x01\x01";

pub const OTHER_ROOTS: [u8; 32] = *b"\
    \x09\x09\x09\x09\x09\x09\x09\x09\x09\x09\x09\x09\x09\x09\x09\x09\
    \x64\x09\x09\x09\x09\x09\x09\x09\x09\x09\x09\x09\x09\x09\x09\x09";

// What a dealing is dealt from, with one bit a branch and one label: the field's byte and the number of trees as `deal` takes them.
#[derive(Clone, Copy)]
pub struct Dealing {
    pub field: u8,
    pub depth: usize,
    pub trees: usize,
    pub terms: usize,
    pub outputs: usize,
    pub roots: &'static [u8],
    pub positions: &'static [u32],
    pub values: &'static [u64],
    pub delta: [u8; 16],
    pub code_key: [u8; 16],
}

// Two trees of eight leaves in field 2, with three terms a row and four outputs. The other dealings differ from it.
pub const USUAL: Dealing = Dealing {
    field: 2,
    depth: 3,
    trees: 2,
    terms: 3,
    outputs: 4,
    roots: &ROOTS,
    positions: &[1, 6],
    values: &[1, 1],
    delta: [9, 1, 2, 3, 4, 5, 6, 7, 0, 0, 0, 0, 0, 0, 0, 0],
    code_key: [2; 16],
};

impl Dealing {
    // Deals both records.
    pub fn deal(self) -> Records {
        let mut noise = [0u8; 512];
        let mut scalar = [0u8; 512];
        let answer = dealing_call::deal(
            self.field,
            self.depth,
            1,
            self.trees,
            self.terms,
            self.outputs,
            self.roots,
            self.positions,
            self.values,
            &self.delta,
            &self.code_key,
            &[8u8; 16],
            &mut noise,
            &mut scalar,
        );
        Records {
            answer,
            noise,
            scalar,
        }
    }
}

// The answer of a dealing, and each record at the front of a buffer, whose length the answer has: the programs use no heap.
#[derive(Drop)]
pub struct Records {
    pub answer: TwoLengths,
    pub noise: [u8; 512],
    pub scalar: [u8; 512],
}

impl Records {
    pub fn noise_record(&self) -> &[u8] {
        front(&self.noise, self.answer.first_written)
    }

    pub fn scalar_record(&self) -> &[u8] {
        front(&self.scalar, self.answer.second_written)
    }
}

// The first n bytes of a buffer, or none if there are fewer.
pub fn front(bytes: &[u8], n: usize) -> &[u8]
    ensures { (length result.now ≤ length bytes.now) × (result.now ≡ take (length result.now) bytes.now) }
{
    bytes.get(..n).unwrap_or(&[])
}
