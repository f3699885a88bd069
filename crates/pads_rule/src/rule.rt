// The pad rule, on tables and round keys that the caller lends.
ghost use Rattle.std.specs.Prelude.{◌≡◌};
ghost use Rattle.aes128.specs.Cipher.{key_expansion};
ghost use Rattle.aes128.specs.Inner.Words.{round_keys};
ghost use Rattle.pads.specs.Pad.{pad_key, index_block, pad};
ghost use Rattle.pads.specs.Inner.Passes.{second_step};

use aes_blocks::{Two, encrypt, encrypt_two};
use aes_sbox::Tables;
use field::Block;

// The round keys of the pads' key, 16 bytes FF.
pub fn pad_keys() -> [u64; 40]
    ensures { round_keys result ≡ key_expansion pad_key }
{
    aes128::schedule([[255; 4]; 4])
}

// The index as a block: what a pad's second step adds to the first.
fn index_block(x: usize) -> Block
    ensures { result ≡ index_block x }
{
    Block {
        low: x as u64,
        high: 0,
    }
}

// The cipher under the pads' key.
#[derive(Clone, Copy)]
pub struct PadCipher<'a> {
    pub(crate) tables: Tables<'a>,
    pub(crate) keys: &'a [u64; 40],
    ghost scheduled: { round_keys keys.now ≡ key_expansion pad_key },
}

impl<'a> PadCipher<'a> {
    // The cipher, of tables and of the round keys that `pad_keys` makes.
    pub fn new(tables: Tables<'a>, keys: &'a [u64; 40]) -> Self
        requires { round_keys keys.now ≡ key_expansion pad_key }
    {
        PadCipher { tables, keys }
    }

    // The pad of index x whose first step is s, and that of index y whose first step is t, in alternation.
    pub fn second_steps(self, x: usize, y: usize, s: Block, t: Block) -> Two<Block>
        ensures { (result.one ≡ second_step x s) × (result.other ≡ second_step y t) }
    {
        let p = s.add(index_block(x));
        let q = t.add(index_block(y));
        let e = encrypt_two(self.tables, self.keys, self.keys, p, q);
        Two {
            one: e.one.add(s),
            other: e.other.add(t),
        }
    }

    // The pad of index x and block a.
    pub fn one_pad(self, x: usize, a: Block) -> Block
        ensures { result ≡ pad x a }
    {
        let s = encrypt(self.tables, self.keys, a);
        self.second_steps(x, x, s, s).one
    }
}
