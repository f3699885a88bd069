// The two steps of two pads: the first written, the second made in place. The buffer comes with a place and not as a part of 32 bytes, so
// that the loops' laws are of one buffer.
ghost use Rattle.std.specs.Prelude.{◌≡◌, ◌+◌, ◌≤◌, length};
ghost use Rattle.algebra.specs.Inner.Put.{with_value};
ghost use Rattle.pads.specs.Bytes.{block_bytes};
ghost use Rattle.pads.specs.Pad.{under_pad_key};
ghost use Rattle.pads.specs.Inner.Passes.{second_step};

use crate::rule::PadCipher;
use aes_blocks::encrypt_two;
use field::Block;
use pads::{block_at, put_block};

impl PadCipher<'_> {
    // Writes the first steps of blocks a and b from a place on.
    pub fn start_two(self, a: Block, b: Block, pads: &mut [u8], at: usize)
        requires { at + 32 ≤ length pads.old }
        ensures { pads.new
            ≡ with_value block_bytes (with_value block_bytes pads.old at (under_pad_key a)) (at + 16) (under_pad_key b) }
    {
        let s = encrypt_two(self.tables, self.keys, self.keys, a, b);
        put_block(pads, at, s.one);
        put_block(pads, at + 16, s.other);
    }

    // Finishes the pads of indices x and y, whose first steps stand from a place on.
    pub fn finish_two(self, x: usize, y: usize, pads: &mut [u8], at: usize)
        requires { at + 32 ≤ length pads.old }
        ensures { pads.new ≡ with_value block_bytes
            (with_value block_bytes pads.old at (second_step x (block_bytes.read pads.old at)))
            (at + 16) (second_step y (block_bytes.read pads.old (at + 16))) }
    {
        let s = block_at(pads, at);
        let t = block_at(pads, at + 16);
        let p = self.second_steps(x, y, s, t);
        put_block(pads, at, p.one);
        put_block(pads, at + 16, p.other);
    }
}
