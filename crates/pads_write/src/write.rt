// The pads of a window, written to the front of a buffer in two passes: the first writes each pad's first step, the second
// finishes each pad in place. The four loops share the cipher's `start_two` and `finish_two`: one loop for both ends would take a closure
// for the two blocks or indices of a turn, and be no shorter. `first` and `count` stay numbers: `Window` is of crate `code`, on which
// no pad rests, and pads may be fewer than the buffers have room for.
ghost use Rattle.std.specs.Prelude.{◌≡◌, ◌+◌, ◌*◌, ◌≤◌, length};
ghost use Rattle.algebra.specs.Coding.{at, over};
ghost use Rattle.pads.specs.Bytes.{block_bytes, pad_pair_bytes};
ghost use Rattle.pads.specs.Pad.{pad, pad_pair, under_pad_key};
ghost use Rattle.pads_rule.specs.Inner.Steps.{WindowFits};
ghost use Rattle.pads.specs.Inner.Passes.{second_step, first_steps, second_steps};

use field::Block;
use pads::{block_at, put_block};
use pads_rule::PadCipher;

// Writes the first steps of pairs of blocks of v.
fn start_pairs(cipher: PadCipher, pairs: usize, v: &[u8], pads: &mut [u8])
    requires { (pairs * 32 ≤ length v.now) × (pairs * 32 ≤ length pads.old) }
    ensures { pads.new ≡ over block_bytes (2 * pairs) (λ k. under_pad_key (at block_bytes v.now k)) pads.old }
{
    for k in 0..pairs {
        let at = 32 * k;
        let a = block_at(v, at);
        let b = block_at(v, at + 16);
        cipher.start_two(a, b, pads, at);
    }
}

// Finishes the pads of pairs of blocks, whose first steps stand in the buffer.
fn finish_pairs(cipher: PadCipher, first: usize, pairs: usize, pads: &mut [u8])
    requires { (first + 2 * pairs ≤ 32768) × (pairs * 32 ≤ length pads.old) }
    ensures { pads.new ≡ over block_bytes (2 * pairs) (λ k. second_step (first + k) (at block_bytes pads.old k)) pads.old }
{
    for k in 0..pairs {
        let x = first + 2 * k;
        cipher.finish_two(x, x + 1, pads, 32 * k);
    }
}

// Writes the pads of pairs of blocks of v.
fn write_pairs(cipher: PadCipher, first: usize, pairs: usize, v: &[u8], pads: &mut [u8])
    requires { WindowFits first (2 * pairs) (length v.now) 16 (length pads.old) }
    ensures { pads.new ≡ over block_bytes (2 * pairs) (λ k. pad (first + k) (at block_bytes v.now k)) pads.old }
{
    start_pairs(cipher, pairs, v, pads);
    finish_pairs(cipher, first, pairs, pads);
}

// Writes the pad of each block of v, two at a time; the last of an odd count alone.
pub fn write_pads(cipher: PadCipher, first: usize, count: usize, v: &[u8], pads: &mut [u8])
    requires { WindowFits first count (length v.now) 16 (length pads.old) }
    ensures { pads.new ≡ over block_bytes count (λ k. pad (first + k) (at block_bytes v.now k)) pads.old }
{
    let pairs = count / 2;
    write_pairs(cipher, first, pairs, v, pads);
    let k = 2 * pairs;
    if k < count {
        let at = 16 * k;
        let a = block_at(v, at);
        let p = cipher.one_pad(first + k, a);
        put_block(pads, at, p);
    }
}

// Writes the first steps of pads 0 and 1 of each block of w.
fn start_both_pads(cipher: PadCipher, count: usize, w: &[u8], delta: Block, pads: &mut [u8])
    requires { (count * 16 ≤ length w.now) × (count * 32 ≤ length pads.old) }
    ensures { pads.new ≡ over pad_pair_bytes count (λ k. first_steps (at block_bytes w.now k) delta) pads.old }
{
    for k in 0..count {
        let b = block_at(w, 16 * k);
        cipher.start_two(b, b.add(delta), pads, 32 * k);
    }
}

// Finishes pads 0 and 1 of each output, whose first steps stand in the buffer.
fn finish_both_pads(cipher: PadCipher, first: usize, count: usize, pads: &mut [u8])
    requires { (first + count ≤ 32768) × (count * 32 ≤ length pads.old) }
    ensures { pads.new
        ≡ over pad_pair_bytes count (λ k. second_steps (first + k) (at pad_pair_bytes pads.old k)) pads.old }
{
    for k in 0..count {
        let x = first + k;
        cipher.finish_two(x, x, pads, 32 * k);
    }
}

// Writes pads 0 and 1 of each block of w.
pub fn write_both_pads(
    cipher: PadCipher,
    first: usize,
    count: usize,
    w: &[u8],
    delta: Block,
    pads: &mut [u8],
)
    requires { WindowFits first count (length w.now) 32 (length pads.old) }
    ensures { pads.new
        ≡ over pad_pair_bytes count (λ k. pad_pair pad (first + k) (at block_bytes w.now k) delta) pads.old }
{
    start_both_pads(cipher, count, w, delta, pads);
    finish_both_pads(cipher, first, count, pads);
}
