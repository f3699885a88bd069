// KeyExpansion of FIPS 197, and the forty words in which the cipher is lent its round keys.
ghost use Rattle.std.specs.Prelude.{◌≡◌};
ghost use Rattle.field.specs.Bytes.{columns_of};
ghost use Rattle.aes128.specs.State.{xor_word};
ghost use Rattle.aes128.specs.Cipher.{key_expansion};
ghost use Rattle.aes128.specs.Inner.Words.{wide_key, round_keys};
ghost use Rattle.aes128.specs.Inner.Steps.{next_key};

use aes_sbox::{sub, wide_column};
use field::Block;

// The exclusive or of two words. Written out, which is as short: by `array::from_fn` the check does not find the proof.
fn xor_word(a: [u8; 4], b: [u8; 4]) -> [u8; 4]
    ensures { result ≡ xor_word a b }
{
    [a[0] ^ b[0], a[1] ^ b[1], a[2] ^ b[2], a[3] ^ b[3]]
}

// The round key after k, whose round constant has the first byte x.
fn next_key(k: [[u8; 4]; 4], x: u8) -> [[u8; 4]; 4]
    ensures { result ≡ next_key x k }
{
    let t = k[3];
    let temp = xor_word([sub(t[1]), sub(t[2]), sub(t[3]), sub(t[0])], [x, 0, 0, 0]);
    let w0 = xor_word(k[0], temp);
    let w1 = xor_word(k[1], w0);
    let w2 = xor_word(k[2], w1);
    let w3 = xor_word(k[3], w2);
    [w0, w1, w2, w3]
}

// The round constants' first bytes, x^0 to x^9.
static ROUND_CONSTANTS: [u8; 10] = [0x01, 0x02, 0x04, 0x08, 0x10, 0x20, 0x40, 0x80, 0x1b, 0x36];

// KeyExpansion: the eleven round keys.
fn expand_key(key: [[u8; 4]; 4]) -> [[[u8; 4]; 4]; 11]
    ensures { result ≡ key_expansion key }
{
    let mut keys = [key; 11];
    for (i, x) in ROUND_CONSTANTS.iter().enumerate() {
        keys[i + 1] = next_key(keys[i], *x);
    }
    keys
}

// The wide columns of a round key.
fn wide_key(k: [[u8; 4]; 4]) -> [u64; 4]
    ensures { wide_key result 0 ≡ k }
{
    [
        wide_column(k[0]),
        wide_column(k[1]),
        wide_column(k[2]),
        wide_column(k[3]),
    ]
}

// The block of a round key.
fn block_key(k: [[u8; 4]; 4]) -> Block
    ensures { columns_of result.low result.high ≡ k }
{
    Block::of_columns(k)
}

// The words of eleven round keys. Four are written by index: for `copy_from_slice` see `record::write_bytes`.
fn words_of(k: [[[u8; 4]; 4]; 11]) -> [u64; 40]
    ensures { round_keys result ≡ k }
{
    let key0 = block_key(k[0]);
    let last = block_key(k[10]);
    let mut words = [0u64; 40];
    words[0] = key0.low;
    words[1] = key0.high;
    for i in 0..9 {
        let w = wide_key(k[i + 1]);
        let at = 4 * i + 2;
        words[at] = w[0];
        words[at + 1] = w[1];
        words[at + 2] = w[2];
        words[at + 3] = w[3];
    }
    words[38] = last.low;
    words[39] = last.high;
    words
}

// The round keys of a key, as words: forty and no struct, since `full_round`, `last_round` and `share`, which docs/PROMISES.md names
// (13.3), promise their answer for any forty words.
pub fn schedule(key: [[u8; 4]; 4]) -> [u64; 40]
    ensures { round_keys result ≡ key_expansion key }
{
    words_of(expand_key(key))
}
