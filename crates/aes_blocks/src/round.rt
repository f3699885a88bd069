// The rounds of FIPS 197's cipher, on the tables that join SubBytes with MixColumns.
ghost use Rattle.std.specs.Prelude.{◌≡◌, ◌+◌, ◌^◌, ◌<◌, ◌≤◌};
ghost use Rattle.field.specs.Bytes.{le_bytes, columns_of};
ghost use Rattle.aes_sbox.specs.Inner.Wide.{wide_rows};
ghost use Rattle.aes128.specs.State.{xor_word};
ghost use Rattle.aes128.specs.Cipher.{sub_bytes, shift_rows, mix_column, add_round_key};
ghost use Rattle.aes128.specs.Inner.Words.{wide_key, block_key};
ghost use Rattle.aes128.specs.Inner.Steps.{sub_shifted, full_round};
ghost use Rattle.aes128.specs.Inner.Blocks.{IsHalf, LastWord};

use aes_sbox::Tables;
use field::Block;

// The rows of a wide column.
pub fn rows(w: u64) -> [u8; 4]
    ensures { result ≡ wide_rows w }
{
    [
        (w % 0x100) as u8,
        (w / 0x100_0000 % 0x100) as u8,
        (w / 0x1_0000_0000 % 0x100) as u8,
        (w / 0x100_0000_0000_0000 % 0x100) as u8,
    ]
}

// Column c of a round: SubBytes, ShiftRows and MixColumns of a state, and the round key's column.
fn mix_column(tables: Tables, s: &[[u8; 4]; 4], c: usize, k: u64) -> [u8; 4]
    requires { c < 4 }
    ensures { result ≡ xor_word (mix_column (sub_shifted s.now c)) (wide_rows k) }
{
    rows(
        k ^ tables.mixed(0, s[c][0])
            ^ tables.mixed(3, s[(c + 3) % 4][3])
            ^ tables.mixed(1, s[(c + 1) % 4][1])
            ^ tables.mixed(2, s[(c + 2) % 4][2]),
    )
}

// A round with all four steps, whose round key's columns begin at a place: any of forty words, as `aes128::schedule` says.
pub fn full_round(tables: Tables, s: [[u8; 4]; 4], keys: &[u64; 40], at: usize) -> [[u8; 4]; 4]
    requires { at + 4 ≤ 40 }
    ensures { result ≡ full_round s (wide_key keys.now at) }
{
    let c0 = mix_column(tables, &s, 0, keys[at]);
    let c1 = mix_column(tables, &s, 1, keys[at + 1]);
    let c2 = mix_column(tables, &s, 2, keys[at + 2]);
    let c3 = mix_column(tables, &s, 3, keys[at + 3]);
    [c0, c1, c2, c3]
}

// Column c of the last round without its round key, as the four low bytes of a word.
fn last_column(tables: Tables, s: &[[u8; 4]; 4], c: usize) -> u64
    requires { c < 4 }
    ensures { IsHalf result (sub_shifted s.now c) }
{
    tables.low_rows(s[c][0]) % 0x1_0000_0000
        ^ tables.high_rows(s[(c + 3) % 4][3]) / 0x1_0000_0000
        ^ tables.low_rows(s[(c + 1) % 4][1]) / 0x1_0000_0000
        ^ tables.high_rows(s[(c + 2) % 4][2]) % 0x1_0000_0000
}

// The exclusive or of a word and of the word whose halves are two columns.
fn last_word(k: u64, c0: u64, c1: u64) -> u64
    requires { (c0 < 2 ^ 32) × (c1 < 2 ^ 32) }
    ensures { LastWord k (le_bytes 4 c0) (le_bytes 4 c1) result }
{
    k ^ c0 ^ (c1 << 32)
}

// The last round, which has no MixColumns.
pub fn last_round(tables: Tables, s: [[u8; 4]; 4], keys: &[u64; 40]) -> [[u8; 4]; 4]
    ensures { result ≡ add_round_key (shift_rows (sub_bytes s)) (block_key keys.now 38) }
{
    let c0 = last_column(tables, &s, 0);
    let c1 = last_column(tables, &s, 1);
    let c2 = last_column(tables, &s, 2);
    let c3 = last_column(tables, &s, 3);
    let t = Block {
        low: last_word(keys[38], c0, c1),
        high: last_word(keys[39], c2, c3),
    };
    t.columns()
}

// The first AddRoundKey, of a block.
pub fn first_key(s: Block, keys: &[u64; 40]) -> [[u8; 4]; 4]
    ensures { result ≡ add_round_key (columns_of s.low s.high) (block_key keys.now 0) }
{
    let key = Block {
        low: keys[0],
        high: keys[1],
    };
    s.add(key).columns()
}
