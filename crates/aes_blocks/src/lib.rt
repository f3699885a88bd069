// FIPS 197's cipher under a key of 128 bits, of one block and of two in alternation, on tables and round keys that the caller lends.
#![tactic(auto)]

ghost use Rattle.std.specs.Prelude.{◌≡◌};
ghost use Rattle.aes128.specs.Inner.Blocks.{cipher_of};

use aes_sbox::Tables;
use field::Block;

mod round;

pub use round::{first_key, full_round, last_round, rows};

// Two values: what is made of two blocks in alternation. No pair: contracts say which of the two by name.
#[derive(Clone, Copy)]
pub struct Two<T> {
    pub one: T,
    pub other: T,
}

// Tables and round keys stay two parameters: trees lend eight lists of round keys beside one set of tables. The rounds are written out:
// in a loop two ciphers take 1,793 instructions where they take 1,112. `encrypt_two` stays beside `encrypt`, two calls of which would run
// one block after the other (docs/DECISIONS.md), and takes its blocks apart, as what calls it has them.

// The cipher of a block.
pub fn encrypt(tables: Tables, keys: &[u64; 40], s: Block) -> Block
    ensures { result ≡ cipher_of keys.now s }
{
    let a0 = first_key(s, keys);
    let a1 = full_round(tables, a0, keys, 2);
    let a2 = full_round(tables, a1, keys, 6);
    let a3 = full_round(tables, a2, keys, 10);
    let a4 = full_round(tables, a3, keys, 14);
    let a5 = full_round(tables, a4, keys, 18);
    let a6 = full_round(tables, a5, keys, 22);
    let a7 = full_round(tables, a6, keys, 26);
    let a8 = full_round(tables, a7, keys, 30);
    let a9 = full_round(tables, a8, keys, 34);
    let a10 = last_round(tables, a9, keys);
    Block::of_columns(a10)
}

// The ciphers of two blocks, each under round keys of its own, in alternation.
pub fn encrypt_two(
    tables: Tables,
    one_keys: &[u64; 40],
    other_keys: &[u64; 40],
    one: Block,
    other: Block,
) -> Two<Block>
    ensures { (result.one ≡ cipher_of one_keys.now one) × (result.other ≡ cipher_of other_keys.now other) }
{
    let a0 = first_key(one, one_keys);
    let a1 = full_round(tables, a0, one_keys, 2);
    let b0 = first_key(other, other_keys);
    let b1 = full_round(tables, b0, other_keys, 2);
    let a2 = full_round(tables, a1, one_keys, 6);
    let b2 = full_round(tables, b1, other_keys, 6);
    let a3 = full_round(tables, a2, one_keys, 10);
    let b3 = full_round(tables, b2, other_keys, 10);
    let a4 = full_round(tables, a3, one_keys, 14);
    let b4 = full_round(tables, b3, other_keys, 14);
    let a5 = full_round(tables, a4, one_keys, 18);
    let b5 = full_round(tables, b4, other_keys, 18);
    let a6 = full_round(tables, a5, one_keys, 22);
    let b6 = full_round(tables, b5, other_keys, 22);
    let a7 = full_round(tables, a6, one_keys, 26);
    let b7 = full_round(tables, b6, other_keys, 26);
    let a8 = full_round(tables, a7, one_keys, 30);
    let b8 = full_round(tables, b7, other_keys, 30);
    let a9 = full_round(tables, a8, one_keys, 34);
    let b9 = full_round(tables, b8, other_keys, 34);
    let a10 = last_round(tables, a9, one_keys);
    let b10 = last_round(tables, b9, other_keys);
    Two {
        one: Block::of_columns(a10),
        other: Block::of_columns(b10),
    }
}
