// Published vectors of AES-128, and a chain of blocks, through the proved code and through a plain second implementation.
#![tactic(auto)]

mod plain;
mod vectors;

ghost use Rattle.std.specs.Prelude.{◌<◌};

use aes_sbox::Tables;
use field::Block;
use vectors::{C1, Case};

// The sixteen bytes of a block.
fn bytes_of(block: Block) -> [u8; 16] {
    let mut bytes = [0u8; 16];
    block.write(&mut bytes, 0);
    bytes
}

// The four bytes of a wide column, as the lower half of a word.
fn narrow(wide: u64) -> u64 {
    (wide & 0xff) | ((wide >> 16) & 0xff_ff00) | ((wide >> 32) & 0xff00_0000)
}

// The eight bytes of two wide columns, as a word.
fn two_columns(first: u64, second: u64) -> u64 {
    narrow(first) | (narrow(second) << 32)
}

// Round key i of those that the proved cipher is lent.
fn lent_key(keys: &[u64; 40], i: usize) -> [u8; 16]
    requires { i < 11 }
{
    let (low, high) = match i {
        0 => (keys[0], keys[1]),
        10 => (keys[38], keys[39]),
        _ => {
            let at = 4 * i - 2;
            (
                two_columns(keys[at], keys[at + 1]),
                two_columns(keys[at + 2], keys[at + 3]),
            )
        }
    };
    bytes_of(Block { low, high })
}

// The round keys of a key, as the proved cipher is lent them.
fn lent_keys(key: &[u8; 16]) -> [u64; 40] {
    aes128::schedule(Block::read(key, 0).columns())
}

// The rounds' tables of the proved cipher, and the S-box of the plain one.
#[derive(Drop)]
struct Ciphers<'a> {
    pub tables: Tables<'a>,
    pub plain: [u8; 256],
}

impl Ciphers<'_> {
    // A key schedule is what is published.
    fn schedule_right(&self, key: &[u8; 16], want: &[[u8; 16]; 11]) -> bool {
        let keys = lent_keys(key);
        let plain = plain::expand(&self.plain, *key);
        (0..11).all(|i| lent_key(&keys, i) == want[i]) && plain == *want
    }

    // An encryption is what is published.
    fn block_right(&self, case: &Case) -> bool {
        let keys = lent_keys(&case.key);
        let mine = aes_blocks::encrypt(self.tables, &keys, Block::read(&case.block, 0));
        let plain_keys = plain::expand(&self.plain, case.key);
        let plain = plain::encrypt(&self.plain, &plain_keys, case.block);
        bytes_of(mine) == case.want && plain == case.want
    }

    // Two encryptions at a time, each under a key of its own, are what is published.
    fn pair_right(&self, one: &Case, other: &Case) -> bool {
        let keys = lent_keys(&one.key);
        let others = lent_keys(&other.key);
        let mine = aes_blocks::encrypt_two(
            self.tables,
            &keys,
            &others,
            Block::read(&one.block, 0),
            Block::read(&other.block, 0),
        );
        bytes_of(mine.one) == one.want && bytes_of(mine.other) == other.want
    }

    // Four encryptions are what is published, one at a time and two at a time.
    fn blocks_right(&self, cases: &[Case; 4]) -> bool {
        let [a, b, c, d] = cases;
        cases.iter().all(|case| self.block_right(case))
            && self.pair_right(a, b)
            && self.pair_right(c, d)
    }

    // A hundred keys and a hundred blocks under each are what the plain one makes of them: a block is the encryption before it,
    // and so is each new key. Beside each block stands the key as a block, under the key before.
    fn chain_right(&self) -> bool {
        let mut block = C1.block;
        let mut key = C1.key;
        let mut last = key;
        for _ in 0..100 {
            let keys = lent_keys(&key);
            let lasts = lent_keys(&last);
            let plain_keys = plain::expand(&self.plain, key);
            let plain_lasts = plain::expand(&self.plain, last);
            for _ in 0..100 {
                let want = plain::encrypt(&self.plain, &plain_keys, block);
                let beside = plain::encrypt(&self.plain, &plain_lasts, key);
                let mine = aes_blocks::encrypt(self.tables, &keys, Block::read(&block, 0));
                let two = aes_blocks::encrypt_two(
                    self.tables,
                    &keys,
                    &lasts,
                    Block::read(&block, 0),
                    Block::read(&key, 0),
                );
                if bytes_of(mine) != want
                    || bytes_of(two.one) != want
                    || bytes_of(two.other) != beside
                {
                    return false;
                }
                block = want;
            }
            last = key;
            key = block;
        }
        true
    }
}

// A line a group. What cannot be printed is left out.
fn main(rt: HostRuntime) {
    let mut words = [0u64; 1536];
    let ciphers = Ciphers {
        tables: Tables::fill(&mut words),
        plain: plain::sub_table(),
    };
    let groups = [
        (
            "FIPS 197 A.1, eleven round keys",
            ciphers.schedule_right(&vectors::KEY, &vectors::SCHEDULE),
        ),
        ("FIPS 197 B, one block", ciphers.block_right(&vectors::B)),
        ("FIPS 197 C.1, one block", ciphers.block_right(&C1)),
        (
            "SP 800-38A F.1.1, four blocks",
            ciphers.blocks_right(&vectors::ECB),
        ),
        (
            "AESAVS known answers, four blocks",
            ciphers.blocks_right(&vectors::KNOWN),
        ),
        (
            "chain of 10,000 blocks under 100 keys",
            ciphers.chain_right(),
        ),
    ];
    for (name, right) in groups {
        let verdict = if right { "ok" } else { "WRONG" };
        let _ = println!(rt; "{name}: {verdict}");
    }
}
