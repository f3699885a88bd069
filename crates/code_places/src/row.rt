// The code under round keys that a caller lends: the terms of a row and their places.
ghost use Rattle.std.specs.Prelude.{◌≡◌, ◌<◌};
ghost use Rattle.aes128.specs.Inner.Words.{round_keys};
ghost use Rattle.field.specs.Bytes.{high_of};
ghost use Rattle.code.specs.Inner.Rows.{Shaped, term_block_by, place_by, place_in};

use aes_blocks::encrypt;
use aes_sbox::Tables;
use code::Shape;
use field::Block;

// The place that a word names for term i, in strip i. Beside the method of the same name, since a place needs no cipher.
pub fn place_of(shape: Shape, i: usize, word: u64) -> usize
    requires { Shaped shape × (i < shape.terms) }
    ensures { (result ≡ place_by shape i word) × (result < shape.places) }
{
    let strip = shape.strip;
    i * strip + (word % (strip as u64)) as usize
}

// A term of a row: its place, and the last eight bytes of its block as a word.
#[derive(Clone, Copy)]
pub struct Term {
    pub place: usize,
    pub word: u64,
}

// The code: its cipher, by the tables and the round keys of the code key, and its shape. That a term is below `terms` is asked by clause: a
// type for it would carry the code.
#[derive(Clone, Copy)]
pub struct Code<'a> {
    pub tables: Tables<'a>,
    pub keys: &'a [u64; 40],
    pub shape: Shape,
    ghost shaped: { Shaped shape },
}

impl<'a> Code<'a> {
    // The code of a whole shape.
    pub fn new(tables: Tables<'a>, keys: &'a [u64; 40], shape: Shape) -> Self
        requires { Shaped shape }
        ensures { (result.keys.now ≡ keys.now) × (result.shape ≡ shape) }
    {
        Code {
            tables,
            keys,
            shape,
        }
    }

    // The place that a word names for term i.
    pub fn place_of(self, i: usize, word: u64) -> usize
        requires { i < self.shape.terms }
        ensures { (result ≡ place_by self.entry.shape i word) × (result < self.entry.shape.places) }
    {
        place_of(self.shape, i, word)
    }

    // Term i of row x.
    pub fn row_term(self, x: usize, i: usize) -> Term
        requires { i < self.shape.terms }
        ensures { (result.place ≡ place_in (round_keys self.entry.keys.now) self.entry.shape x i)
            × (result.place < self.entry.shape.places) × (result.word ≡ high_of (term_block_by (round_keys self.entry.keys.now) x i)) }
    {
        let block = encrypt(
            self.tables,
            self.keys,
            Block {
                low: x as u64,
                high: i as u64,
            },
        );
        Term {
            place: self.place_of(i, block.low),
            word: block.high,
        }
    }

    // The place of term i of row x.
    pub(crate) fn row_place(self, x: usize, i: usize) -> usize
        requires { i < self.shape.terms }
        ensures { (result ≡ place_in (round_keys self.entry.keys.now) self.entry.shape x i) × (result < self.entry.shape.places) }
    {
        self.row_term(x, i).place
    }
}
