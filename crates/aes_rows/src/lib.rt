// The cipher on the blocks of one row: of x and i, for one x and i below 256. They share most of the first two rounds.
#![tactic(auto)]

ghost use Rattle.std.specs.Prelude.{◌≡◌, ◌+◌, ◌%◌, ◌<◌, get_or};
ghost use Rattle.std.specs.Int.Bits.{bit_xor};
ghost use Rattle.field.specs.Binary.{block};
ghost use Rattle.aes_sbox.specs.Inner.Tables.{mixed};
ghost use Rattle.aes128.specs.State.{column, xor_word};
ghost use Rattle.aes128.specs.Inner.Blocks.{cipher_of};
ghost use Rattle.aes_rows.specs.Inner.Row.{column_of, Lacks, first_of, second_of, IsShared};

use aes_blocks::{Two, first_key, full_round, last_round, rows};
use aes_sbox::{Tables, wide_column};
use field::Block;

// A column of a round of s, with its round key's column, without what the byte in row r adds, which comes of column 2 of s.
fn without_row(tables: Tables, s: &[[u8; 4]; 4], r: usize, k: u64) -> [u8; 4]
    requires { r < 4 }
    ensures { Lacks (mixed r) (column_of r s.now k) result }
{
    let (a, b, c) = ((r + 1) % 4, (r + 2) % 4, (r + 3) % 4);
    rows(k ^ tables.mixed(a, s[3][a]) ^ tables.mixed(b, s[0][b]) ^ tables.mixed(c, s[1][c]))
}

// The states after rounds 1 and 2 that the blocks of x and i share, for one x: each without what the bytes that differ add. Two states in
// an array beside x, and no struct of all three: docs/PROMISES.md has this form (13.3).
pub fn share(tables: Tables, keys: &[u64; 40], x: u64) -> [[[u8; 4]; 4]; 2]
    ensures { IsShared keys.now x result }
{
    let s = first_key(Block { low: x, high: 0 }, keys);
    let t = full_round(tables, s, keys, 2);
    let column2 = without_row(tables, &s, 0, keys[4]);
    let c0 = without_row(tables, &t, 2, keys[6]);
    let c1 = without_row(tables, &t, 1, keys[7]);
    let c2 = without_row(tables, &t, 0, keys[8]);
    let c3 = without_row(tables, &t, 3, keys[9]);
    [[t[0], t[1], column2, t[3]], [c0, c1, c2, c3]]
}

// Column c of a state with what a byte in a row adds.
fn with_byte(tables: Tables, s: &[[u8; 4]; 4], c: usize, row: usize, x: u8) -> [u8; 4]
    requires { (c < 4) × (row < 4) }
    ensures { result ≡ xor_word (column s.now c) (mixed row x) }
{
    rows(wide_column(s[c]) ^ tables.mixed(row, x))
}

// The state of the block of x and i after round 1, from the state that the blocks share: one lookup, for column 2.
fn first_round(tables: Tables, keys: &[u64; 40], s: [[u8; 4]; 4], i: u64) -> [[u8; 4]; 4]
    ensures { result ≡ first_of s (bit_xor i (get_or keys.now 1 0) % 256) }
{
    let x = ((i ^ keys[1]) % 0x100) as u8;
    let c = with_byte(tables, &s, 2, 0, x);
    [s[0], s[1], c, s[3]]
}

// Its state after round 2, from the state that they share and from its state t after round 1: one lookup for each column.
fn second_round(tables: Tables, s: [[u8; 4]; 4], t: [[u8; 4]; 4]) -> [[u8; 4]; 4]
    ensures { result ≡ second_of s (column t 2) }
{
    let c0 = with_byte(tables, &s, 0, 2, t[2][2]);
    let c1 = with_byte(tables, &s, 1, 1, t[2][1]);
    let c2 = with_byte(tables, &s, 2, 0, t[2][0]);
    let c3 = with_byte(tables, &s, 3, 3, t[2][3]);
    [c0, c1, c2, c3]
}

// The ciphers of the blocks of x and i, and of x and i + 1, in alternation. Inlined, so that a caller that reads the first words alone
// makes no others; the rounds are written out as in `encrypt_two`.
#[inline(always)]
pub fn two_blocks(
    tables: Tables,
    keys: &[u64; 40],
    x: u64,
    shared: [[[u8; 4]; 4]; 2],
    i: u64,
) -> Two<Block>
    requires { IsShared keys.now x shared × (i + 1 < 256) }
    ensures { (result.one ≡ cipher_of keys.now (block x i))
        × (result.other ≡ cipher_of keys.now (block x (i + 1))) }
{
    let a1 = first_round(tables, keys, shared[0], i);
    let a2 = second_round(tables, shared[1], a1);
    let b1 = first_round(tables, keys, shared[0], i + 1);
    let b2 = second_round(tables, shared[1], b1);
    let a3 = full_round(tables, a2, keys, 10);
    let b3 = full_round(tables, b2, keys, 10);
    let a4 = full_round(tables, a3, keys, 14);
    let b4 = full_round(tables, b3, keys, 14);
    let a5 = full_round(tables, a4, keys, 18);
    let b5 = full_round(tables, b4, keys, 18);
    let a6 = full_round(tables, a5, keys, 22);
    let b6 = full_round(tables, b5, keys, 22);
    let a7 = full_round(tables, a6, keys, 26);
    let b7 = full_round(tables, b6, keys, 26);
    let a8 = full_round(tables, a7, keys, 30);
    let b8 = full_round(tables, b7, keys, 30);
    let a9 = full_round(tables, a8, keys, 34);
    let b9 = full_round(tables, b8, keys, 34);
    let a10 = last_round(tables, a9, keys);
    let b10 = last_round(tables, b9, keys);
    Two {
        one: Block::of_columns(a10),
        other: Block::of_columns(b10),
    }
}
