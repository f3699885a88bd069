// Elements of either field by the field's number, which may be any (`BINARY` says why): made of leaves, words and bytes, added, scaled,
// compared, tested and written. An `Element` is no enum of both fields: `is_element` judges words that are an element of neither, and each answer is
// promised for every number.
ghost use Rattle.std.specs.Prelude.{◌≡◌, ◌+◌, ◌*◌, ◌≤◌, length};
ghost use Rattle.algebra.specs.Coding.{at};
ghost use Rattle.field.specs.Binary.{block};
ghost use Rattle.prime.specs.Prime.{prime};
ghost use Rattle.field.specs.ByNumber.{element_of, rest_zero, is_element, is_zero, is_scalar};
ghost use Rattle.field.specs.Kind.{kind_of};
ghost use Rattle.field.specs.Inner.Elements.{element_length, noise_in, element_in, element_at, Compared};
ghost use Rattle.field.specs.Inner.Written.{with_words};

use crate::BINARY;
use crate::block::Block;
use crate::bytes::{put_word, word_at};
use crate::parts::FieldElement;
use crate::width::element_width;
use prime::Prime;

// An element: in field 1 its two words, in field 2 its word and any second one. A noise value is one word and any second one.
#[derive(Clone, Copy)]
pub struct Element {
    pub low: u64,
    pub high: u64,
}

// By name and not by `From`: an element's words do not say of which field it is.
impl Element {
    // As an element of field 1.
    fn block(self) -> Block
        ensures { result ≡ block self.low self.high }
    {
        Block {
            low: self.low,
            high: self.high,
        }
    }

    // As an element of field 2, which its first word is.
    fn prime(self) -> Prime
        ensures { result ≡ prime self.low }
    {
        Prime { word: self.low }
    }
}

impl From<Block> for Element {
    ghost from_gives = { λ block e. e ≡ record { low = block.low; high = block.high } };

    fn from(block: Block) -> Element {
        Element {
            low: block.low,
            high: block.high,
        }
    }
}

impl From<Prime> for Element {
    ghost from_gives = { λ prime e. e ≡ record { low = prime.word; high = 0 } };

    fn from(prime: Prime) -> Element {
        Element {
            low: prime.word,
            high: 0,
        }
    }
}

// How many bytes an element takes.
pub fn element_length(field: usize) -> usize
    ensures { result ≡ element_length field }
{
    8 * element_width(field)
}

// The element of a leaf.
pub fn leaf_element(field: usize, leaf: [[u8; 4]; 4]) -> Element
    ensures { element_in field result ≡ (kind_of field).leaf leaf }
{
    let block = Block::of_columns(leaf);
    if field == BINARY {
        Element::from(block)
    } else {
        Element::from(Prime::reduce(block.low))
    }
}

// The element whose bytes begin at a place; its second word is 0 where it has one.
pub fn element_at(field: usize, bytes: &[u8], at: usize) -> Element
    requires { at + element_length field ≤ length bytes.now }
    ensures { result ≡ element_at field bytes.now at }
{
    if field == BINARY {
        Element::from(Block::read(bytes, at))
    } else {
        Element::from(Prime {
            word: word_at(bytes, at),
        })
    }
}

// Element i of a vector, which has room for two words an element in either field.
pub fn element_of(field: usize, words: &[u64], i: usize) -> Element
    requires { i * 2 + 2 ≤ length words.now }
    ensures { element_in field result ≡ at (kind_of field).field.elements words.now i }
{
    if field == BINARY {
        Element::from(Block::at(words, i))
    } else {
        Element::from(Prime::at(words, i))
    }
}

// The sum of two elements. It and the difference are a line a field: one function of both would take the operations as two closures.
pub fn element_sum(field: usize, a: Element, b: Element) -> Element
    ensures { element_in field result ≡ (kind_of field).field.scaled.group.add (element_in field a) (element_in field b) }
{
    if field == BINARY {
        Element::from(a.block().add(b.block()))
    } else {
        Element::from(a.prime().add(b.prime()))
    }
}

// The difference of two elements.
pub fn element_difference(field: usize, a: Element, b: Element) -> Element
    ensures { element_in field result ≡ (kind_of field).field.scaled.group.sub (element_in field a) (element_in field b) }
{
    if field == BINARY {
        Element::from(a.block().sub(b.block()))
    } else {
        Element::from(a.prime().sub(b.prime()))
    }
}

// A noise value times an element.
pub fn element_scaled(field: usize, value: u64, a: Element) -> Element
    ensures { element_in field result ≡ (kind_of field).field.scaled.scale (noise_in field value) (element_in field a) }
{
    if field == BINARY {
        Element::from(a.block().scale(value))
    } else {
        Element::from(Prime { word: value }.mul(a.prime()))
    }
}

// Whether two elements are equal. No `PartialEq`, which has no field's number: in field 2 the second words do not count.
pub fn same_element(field: usize, a: Element, b: Element) -> bool
    ensures { Compared field a b result }
{
    a.low == b.low && (field != BINARY || a.high == b.high)
}

// Whether the words are an element.
pub fn is_element(field: usize, a: Element) -> bool
    ensures { result ≡ is_element field (element_of field a.low a.high) }
{
    field == BINARY || a.low < Prime::MODULUS
}

// Whether the words are those of zero.
fn is_zero(field: usize, a: Element) -> bool
    ensures { result ≡ is_zero field (element_of field a.low a.high) }
{
    a.low == 0 && (field != BINARY || a.high == 0)
}

// Whether the words are an element other than zero.
pub fn is_scalar(field: usize, a: Element) -> bool
    ensures { result ≡ is_scalar field (element_of field a.low a.high) }
{
    is_element(field, a) && !is_zero(field, a)
}

// Whether a second word that no element of the field has is 0.
pub fn rest_zero(field: usize, high: u64) -> bool
    ensures { result ≡ rest_zero field high }
{
    field == BINARY || high == 0
}

// Writes the bytes of an element from a place on.
pub fn put_element(field: usize, bytes: &mut [u8], at: usize, element: Element)
    requires { at + element_length field ≤ length bytes.old }
    ensures { bytes.new ≡ with_words bytes.old at (element_of field element.low element.high) }
{
    put_word(bytes, at, element.low);
    if field == BINARY {
        put_word(bytes, at + 8, element.high);
    }
}
