// The round keys of the child keys, and the cipher by which a node's children are made.
ghost use Rattle.std.specs.Prelude.{◌≡◌, ◌+◌, ◌^◌, ◌≤◌, ◌<◌};
ghost use Rattle.tree.specs.Child.{child_by};
ghost use Rattle.tree.specs.Inner.Keys.{keys_for};
ghost use Rattle.tree.specs.KeySchedules.{OfChildKeys};
ghost use Rattle.tree.specs.Inner.Nodes.{node_of};

use crate::powers::power;
use aes_blocks::Two;
use aes_sbox::Tables;
use field::Block;

// The round keys of the child keys of a node's 2^branch_bits children, those of child c at place c. Eight places for any branch_bits: there
// is no heap, and no const argument can be computed.
pub fn child_keys(branch_bits: usize) -> [[u64; 40]; 8]
    requires { branch_bits ≤ 3 }
    ensures { OfChildKeys (2 ^ branch_bits) (keys_for result) }
{
    let count = power(branch_bits);
    let mut keys = [[0u64; 40]; 8];
    for c in 0..count {
        keys[c] = aes128::schedule([[c as u8; 4]; 4]);
    }
    keys
}

// The cipher of a tree: tables, and the round keys of eight child keys, those of child c at place c. No ghost field says of which keys
// they are, since walks and fills are proved for any that they are lent (document 02, 3). No field says how many children a node has:
// walks are given it by the caller, whose promises speak of it. That a child is below 8 is asked by clause: it is reckoned (a digit, c + 1,
// c + 2), and a type would be proved anew at each step.
#[derive(Clone, Copy)]
pub struct TreeCipher<'a> {
    pub tables: Tables<'a>,
    pub keys: &'a [[u64; 40]; 8],
}

impl TreeCipher<'_> {
    // Child c of a node.
    pub fn child(self, c: usize, s: Block) -> Block
        requires { c < 8 }
        ensures { node_of result ≡ child_by (keys_for self.entry.keys.now) c (node_of s) }
    {
        let e = aes_blocks::encrypt(self.tables, &self.keys[c], s);
        e.add(s)
    }

    // Children c and c + 1 of a node. Inlined, so that sums of leaves make no call more.
    #[inline(always)]
    pub fn children(self, c: usize, s: Block) -> Two<Block>
        requires { c + 1 < 8 }
        ensures { (node_of result.one ≡ child_by (keys_for self.entry.keys.now) c (node_of s))
            × (node_of result.other ≡ child_by (keys_for self.entry.keys.now) (c + 1) (node_of s)) }
    {
        let both = aes_blocks::encrypt_two(self.tables, &self.keys[c], &self.keys[c + 1], s, s);
        Two {
            one: both.one.add(s),
            other: both.other.add(s),
        }
    }

    // Child c of each of two nodes. One function of this and `children` would take two children and two nodes: `encrypt_two` again.
    pub fn child_of_both(self, c: usize, a: Block, b: Block) -> Two<Block>
        requires { c < 8 }
        ensures { (node_of result.one ≡ child_by (keys_for self.entry.keys.now) c (node_of a))
            × (node_of result.other ≡ child_by (keys_for self.entry.keys.now) c (node_of b)) }
    {
        let both = aes_blocks::encrypt_two(self.tables, &self.keys[c], &self.keys[c], a, b);
        Two {
            one: both.one.add(a),
            other: both.other.add(b),
        }
    }
}
