// Key records: the head and a tree in numbers, sizes that follow, and writing. Reading is crate `record_reading`.
#![tactic(auto)]

ghost use Rattle.std.specs.Prelude.{◌≡◌};
ghost use Rattle.record.specs.Inner.Ends.{end_byte, OfByte};

use answer::Refusal;
use field::Element;

mod sizes;
mod writing;

pub use sizes::{leaves, sibling_count};
pub use writing::{
    head_length, noise_length, scalar_length, tree_start_length, write_bytes, write_head,
    write_scalar, write_tree_start,
};

// The end that a record is for, by its end byte.
#[derive(Clone, Copy)]
pub enum End {
    Noise = 1,
    Scalar = 2,
}

impl End {
    // The end byte. By name: a `From` would say of a `u8` neither that it is a byte of a record nor which.
    pub fn byte(self) -> u8
        ensures { result ≡ end_byte self }
    {
        self as u8
    }
}

impl TryFrom<u8> for End {
    type Error = Refusal;

    ghost try_from_gives = { OfByte };

    fn try_from(byte: u8) -> Result<Self, Refusal> {
        match byte {
            1 => Ok(End::Noise),
            2 => Ok(End::Scalar),
            _ => Err(Refusal::WrongEnd),
        }
    }
}

// The head of a record in numbers: field, d, g, t, ℓ, n, and the place after it, where the body begins. The field is a number and no
// enum: a dealing's layout is made of what is not tested yet, and the functions of `field` promise an answer for every number.
// For the same reason neither `depth ≤ 16` nor `Writable` is its invariant.
#[derive(Clone, Copy)]
pub struct Layout {
    pub field: usize,
    pub depth: usize,
    pub branch_bits: usize,
    pub trees: usize,
    pub terms: usize,
    pub outputs: usize,
    pub body: usize,
}

// A tree of a noise record: its position, noise value and correction, and the place of its siblings in the record, as the head of `number`
// says of places.
#[derive(Clone, Copy)]
pub struct Tree {
    pub position: usize,
    pub value: u64,
    pub correction: Element,
    pub siblings: usize,
}
