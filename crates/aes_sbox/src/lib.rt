// FIPS 197's S-box as a constant whose rule is proved by one computed test, and the tables of the rounds, which are filled from it.
#![tactic(auto)]

ghost use Rattle.std.specs.Prelude.{◌≡◌, ◌+◌, ◌*◌, ◌^◌, ◌<◌, get_or};
ghost use Rattle.aes_sbox.specs.Byte.{mul_bytes, s_box};
ghost use Rattle.aes_sbox.specs.Inner.Wide.{wide_rows};
ghost use Rattle.aes_sbox.specs.Inner.Tables.{mixed, half_turned, wide_column, RoundTables};
ghost use Rattle.aes_sbox.specs.Table.{SBoxTable};

// 5.1.1: entry x is the S-box's value at x.
pub static SBOX: [u8; 256] = [
    0x63, 0x7c, 0x77, 0x7b, 0xf2, 0x6b, 0x6f, 0xc5, 0x30, 0x01, 0x67, 0x2b, 0xfe, 0xd7, 0xab, 0x76,
    0xca, 0x82, 0xc9, 0x7d, 0xfa, 0x59, 0x47, 0xf0, 0xad, 0xd4, 0xa2, 0xaf, 0x9c, 0xa4, 0x72, 0xc0,
    0xb7, 0xfd, 0x93, 0x26, 0x36, 0x3f, 0xf7, 0xcc, 0x34, 0xa5, 0xe5, 0xf1, 0x71, 0xd8, 0x31, 0x15,
    0x04, 0xc7, 0x23, 0xc3, 0x18, 0x96, 0x05, 0x9a, 0x07, 0x12, 0x80, 0xe2, 0xeb, 0x27, 0xb2, 0x75,
    0x09, 0x83, 0x2c, 0x1a, 0x1b, 0x6e, 0x5a, 0xa0, 0x52, 0x3b, 0xd6, 0xb3, 0x29, 0xe3, 0x2f, 0x84,
    0x53, 0xd1, 0x00, 0xed, 0x20, 0xfc, 0xb1, 0x5b, 0x6a, 0xcb, 0xbe, 0x39, 0x4a, 0x4c, 0x58, 0xcf,
    0xd0, 0xef, 0xaa, 0xfb, 0x43, 0x4d, 0x33, 0x85, 0x45, 0xf9, 0x02, 0x7f, 0x50, 0x3c, 0x9f, 0xa8,
    0x51, 0xa3, 0x40, 0x8f, 0x92, 0x9d, 0x38, 0xf5, 0xbc, 0xb6, 0xda, 0x21, 0x10, 0xff, 0xf3, 0xd2,
    0xcd, 0x0c, 0x13, 0xec, 0x5f, 0x97, 0x44, 0x17, 0xc4, 0xa7, 0x7e, 0x3d, 0x64, 0x5d, 0x19, 0x73,
    0x60, 0x81, 0x4f, 0xdc, 0x22, 0x2a, 0x90, 0x88, 0x46, 0xee, 0xb8, 0x14, 0xde, 0x5e, 0x0b, 0xdb,
    0xe0, 0x32, 0x3a, 0x0a, 0x49, 0x06, 0x24, 0x5c, 0xc2, 0xd3, 0xac, 0x62, 0x91, 0x95, 0xe4, 0x79,
    0xe7, 0xc8, 0x37, 0x6d, 0x8d, 0xd5, 0x4e, 0xa9, 0x6c, 0x56, 0xf4, 0xea, 0x65, 0x7a, 0xae, 0x08,
    0xba, 0x78, 0x25, 0x2e, 0x1c, 0xa6, 0xb4, 0xc6, 0xe8, 0xdd, 0x74, 0x1f, 0x4b, 0xbd, 0x8b, 0x8a,
    0x70, 0x3e, 0xb5, 0x66, 0x48, 0x03, 0xf6, 0x0e, 0x61, 0x35, 0x57, 0xb9, 0x86, 0xc1, 0x1d, 0x9e,
    0xe1, 0xf8, 0x98, 0x11, 0x69, 0xd9, 0x8e, 0x94, 0x9b, 0x1e, 0x87, 0xe9, 0xce, 0x55, 0x28, 0xdf,
    0x8c, 0xa1, 0x89, 0x0d, 0xbf, 0xe6, 0x42, 0x68, 0x41, 0x99, 0x2d, 0x0f, 0xb0, 0x54, 0xbb, 0x16,
];

// The S-box.
pub fn table() -> &'static [u8; 256]
    ensures { SBoxTable result.now }
{
    &SBOX
}

// The S-box at a byte.
pub fn sub(x: u8) -> u8
    ensures { result ≡ s_box x }
{
    table()[x as usize]
}

// Twice a byte in the field of FIPS 197. A word, as are all bytes of the filling: by bytes it took 1,700 instructions more a call,
// and `column_of` stays beside `wide_column` for it.
fn twice(s: u64) -> u64
    requires { s < 256 }
    ensures { (result ≡ mul_bytes 2 s) × (result < 256) }
{
    (s / 128 * 27) ^ (s * 2 % 256)
}

// Three times a byte in the field of FIPS 197.
fn thrice(s: u64) -> u64
    requires { s < 256 }
    ensures { (result ≡ mul_bytes 3 s) × (result < 256) }
{
    twice(s) ^ s
}

// The wide column of four bytes in words.
fn column_of(a: u64, b: u64, c: u64, d: u64) -> u64
    requires { (a < 256) × (b < 256) × (c < 256) × (d < 256) }
    ensures { result ≡ wide_column a b c d }
{
    d * 0x100_0000_0000_0000 + c * 0x1_0000_0000 + b * 0x100_0000 + a
}

// The wide column of four bytes.
pub fn wide_column(rows: [u8; 4]) -> u64
    ensures column { result ≡ wide_column (get_or rows 0 0) (get_or rows 1 0) (get_or rows 2 0) (get_or rows 3 0) }
    ensures rows { wide_rows result ≡ rows }
{
    let [a, b, c, d] = rows;
    u64::from(a)
        + (u64::from(b) + u64::from(c) * 0x100) * 0x100_0000
        + u64::from(d) * 0x100_0000_0000_0000
}

// A wide column whose rows moved down by two, as a sum, which the laws of wide columns go by (`half_turned_column`): `rotate_left` promises
// a bitwise or, and tools/c-file does not know it.
fn half_turned(w: u64) -> u64
    ensures { result ≡ half_turned w }
{
    w % 0x1_0000_0000 * 0x1_0000_0000 + w / 0x1_0000_0000
}

// Fills the tables' words: those of bytes in rows 0 to 3 as `mixed`, then those of the last round.
pub fn fill_tables(words: &mut [u64; 1536])
    ensures { RoundTables words.new }
{
    for x in 0..256 {
        let s = u64::from(sub(x as u8));
        let d = twice(s);
        let e = thrice(s);
        let m0 = column_of(d, s, s, e);
        let m1 = column_of(e, d, s, s);
        words[x] = m0;
        words[256 + x] = m1;
        words[512 + x] = half_turned(m0);
        words[768 + x] = half_turned(m1);
        words[1024 + x] = s + s * 0x100_0000_0000;
        words[1280 + x] = s * 0x1_0000 + s * 0x100_0000_0000_0000;
    }
}

// The tables that the rounds read, in words that a caller lends: by value the words would be copied once more, on 12 KiB of stack. All six
// lie in one array, since `of` takes what `full_round`, `last_round` and `share` took (docs/PROMISES.md, 13.3): any 1,536 such words.
#[derive(Clone, Copy)]
pub struct Tables<'a> {
    words: &'a [u64; 1536],
    ghost filled: { RoundTables words.now },
}

impl<'a> Tables<'a> {
    // Fills words with the tables, and lends them.
    pub fn fill(words: &'a mut [u64; 1536]) -> Self {
        fill_tables(words);
        Tables { words }
    }

    // Lends words that are filled: for callers outside, who met the clause of `full_round`, `last_round` and `share` before.
    pub fn of(words: &'a [u64; 1536]) -> Self
        requires { RoundTables words.now }
    {
        Tables { words }
    }

    // What a byte in a row adds to its column under SubBytes and MixColumns, as a wide column. Here and in the rounds that a row or a column
    // is below 4 is asked by clause: they are reckoned modulo 4, as FIPS 197 has it, which an enum of four is not.
    pub fn mixed(self, row: usize, x: u8) -> u64
        requires { row < 4 }
        ensures { wide_rows result ≡ mixed row x }
    {
        self.words[256 * row + x as usize]
    }

    // The S-box's value at a byte at the places of rows 0 and 1, each in a half of the word. It and `high_rows` are a look-up each, with
    // an equation each: to one function of both the caller would pass a number that says which.
    pub fn low_rows(self, x: u8) -> u64
        ensures { result ≡ s_box x + s_box x * 2 ^ 40 }
    {
        self.words[1024 + x as usize]
    }

    // The S-box's value at a byte at the places of rows 2 and 3, each in a half of the word.
    pub fn high_rows(self, x: u8) -> u64
        ensures { result ≡ s_box x * 2 ^ 16 + s_box x * 2 ^ 56 }
    {
        self.words[1280 + x as usize]
    }
}
