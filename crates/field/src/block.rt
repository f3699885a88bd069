// Field 1: blocks of two words, and the bits that scale them. `read` and `write` take a whole record and a place, as the head of `number` says.
ghost use Rattle.std.specs.Prelude.{◌≡◌, ◌+◌, ◌≤◌, length};
ghost use Rattle.field.specs.Bytes.{columns_of, word_at};
ghost use Rattle.field.specs.Inner.Written.{with_word};
ghost use Rattle.field.specs.Binary.{block, block_zero, block_add, block_sub, block_scale, block_leaf, bit_add};

use crate::bytes::{put_word, word_at};

// An element of field 1: 16 bytes as two words, each least byte first.
#[derive(Clone, Copy)]
pub struct Block {
    pub low: u64,
    pub high: u64,
}

impl Block {
    pub const ZERO: Block = Block { low: 0, high: 0 };

    // The zero of the element kind: the constant as a constructor too, as `Prime` has it (docs/PROMISES.md, 13.2).
    pub fn zero() -> Block
        ensures value { result ≡ block_zero }
        ensures constant { (result.low ≡ Block.ZERO.low) × (result.high ≡ Block.ZERO.high) }
    {
        Block::ZERO
    }

    // The sum, which is exclusive or.
    pub fn add(self, other: Block) -> Block
        ensures { result ≡ block_add self other }
    {
        Block {
            low: self.low ^ other.low,
            high: self.high ^ other.high,
        }
    }

    // The difference, which is the sum.
    pub fn sub(self, other: Block) -> Block
        ensures { result ≡ block_sub self other }
    {
        self.add(other)
    }

    // The block if the noise value is 1, else zero.
    pub fn scale(self, bit: u64) -> Block
        ensures { result ≡ block_scale bit self }
    {
        if bit == 1 { self } else { Block::ZERO }
    }

    // The element of a leaf: its 16 bytes. It and `columns` have names, which say what the four arrays are; `From` would not.
    pub fn of_columns(columns: [[u8; 4]; 4]) -> Block
        ensures { result ≡ block_leaf columns }
    {
        let [[a, b, c, d], [e, f, g, h], [i, j, k, l], [m, n, o, p]] = columns;
        Block {
            low: u64::from_le_bytes([a, b, c, d, e, f, g, h]),
            high: u64::from_le_bytes([i, j, k, l, m, n, o, p]),
        }
    }

    // The block whose 16 bytes begin at a place.
    pub fn read(bytes: &[u8], at: usize) -> Block
        requires { at + 16 ≤ length bytes.now }
        ensures { result ≡ block (word_at bytes.now at) (word_at bytes.now (at + 8)) }
    {
        Block {
            low: word_at(bytes, at),
            high: word_at(bytes, at + 8),
        }
    }

    // Writes the block's 16 bytes from a place on.
    pub fn write(self, bytes: &mut [u8], at: usize)
        requires { at + 16 ≤ length bytes.old }
        ensures { bytes.new ≡ with_word (with_word bytes.old at self.low) (at + 8) self.high }
    {
        put_word(bytes, at, self.low);
        put_word(bytes, at + 8, self.high);
    }

    // The 16 bytes of the two words as four columns.
    pub fn columns(self) -> [[u8; 4]; 4]
        ensures { result ≡ columns_of self.low self.high }
    {
        let [a, b, c, d, e, f, g, h] = self.low.to_le_bytes();
        let [i, j, k, l, m, n, o, p] = self.high.to_le_bytes();
        [[a, b, c, d], [e, f, g, h], [i, j, k, l], [m, n, o, p]]
    }
}

// The sum of two noise values of field 1.
pub fn add_bits(a: u64, b: u64) -> u64
    ensures { result ≡ bit_add a b }
{
    (a % 2 + b % 2) % 2
}
