// What elements of both fields and noise words of field 1 share: a group, and values in a vector of words.
ghost use Rattle.std.specs.Prelude.{◌≡◌, ◌+◌, ◌*◌, ◌/◌, ◌≤◌, length};
ghost use Rattle.algebra.specs.Coding.{at};
ghost use Rattle.algebra.specs.Inner.Put.{put};
ghost use Rattle.field.specs.Inner.Parts.{Parts, block_parts, prime_parts, bit_parts};

use crate::block::{Block, add_bits};
use prime::Prime;

// A value of a group that lies in words.
pub trait FieldElement: Copy {
    ghost parts: { Parts Self };

    fn zero() -> Self
        ensures { result ≡ parts.zero };

    fn add(self, other: Self) -> Self
        ensures { result ≡ parts.add self other };

    fn sub(self, other: Self) -> Self
        ensures { result ≡ parts.sub self other };

    // How many values a vector holds.
    fn count(words: &[u64]) -> usize
        ensures { result ≡ length words.now / parts.coding.width };

    // Value i of a vector.
    fn at(words: &[u64], i: usize) -> Self
        requires { i * parts.coding.width + parts.coding.width ≤ length words.now }
        ensures { result ≡ at parts.coding words.now i };

    // Writes value i of a vector.
    fn put(self, words: &mut [u64], i: usize)
        requires { i * parts.coding.width + parts.coding.width ≤ length words.old }
        ensures { words.new ≡ put parts.coding words.old i self };
}

impl FieldElement for Block {
    ghost parts = { block_parts };

    fn zero() -> Block {
        Block::ZERO
    }

    fn add(self, other: Block) -> Block {
        self.add(other)
    }

    fn sub(self, other: Block) -> Block {
        self.sub(other)
    }

    fn count(words: &[u64]) -> usize {
        words.len() / 2
    }

    fn at(words: &[u64], i: usize) -> Block {
        Block {
            low: words[i * 2],
            high: words[i * 2 + 1],
        }
    }

    fn put(self, words: &mut [u64], i: usize) {
        words[i * 2] = self.low;
        words[i * 2 + 1] = self.high;
    }
}

impl FieldElement for Prime {
    ghost parts = { prime_parts };

    fn zero() -> Prime {
        Prime::ZERO
    }

    fn add(self, other: Prime) -> Prime {
        self.add(other)
    }

    fn sub(self, other: Prime) -> Prime {
        self.sub(other)
    }

    fn count(words: &[u64]) -> usize {
        words.len()
    }

    fn at(words: &[u64], i: usize) -> Prime {
        Prime { word: words[i] }
    }

    fn put(self, words: &mut [u64], i: usize) {
        words[i] = self.word;
    }
}

// A noise word of field 1.
impl FieldElement for u64 {
    ghost parts = { bit_parts };

    fn zero() -> u64 {
        0
    }

    fn add(self, other: u64) -> u64 {
        add_bits(self, other)
    }

    fn sub(self, other: u64) -> u64 {
        add_bits(self, other)
    }

    fn count(words: &[u64]) -> usize {
        words.len()
    }

    fn at(words: &[u64], i: usize) -> u64 {
        words[i]
    }

    fn put(self, words: &mut [u64], i: usize) {
        words[i] = self;
    }
}
