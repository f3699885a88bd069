// A vector of an accepted record, with what the walks to its leaves read.
ghost use Rattle.std.specs.Prelude.{◌≡◌, ◌^◌};
ghost use Rattle.tree.specs.KeySchedules.{OfChildKeys};
ghost use Rattle.tree.specs.Inner.Keys.{keys_for};
ghost use Rattle.ends_bench_leaves.specs.Inner.Trees.{TreesIn, Walking};

use ends_calls::{NoiseRecord, ScalarRecord};
use record::{Layout, Tree};
use tree_walk::TreeCipher;

// 1 is μ, 2 is v0 and 3 is w0: a number and no enum, since `Walking`, `values_of` and `add_output`, which promises its sum for every number,
// go by it. The table has the record's trees, and none is read of it for w0: all 64 places, since as a slice its length would be one fact
// more of `Walking`. Two functions make a vector, as each end's record is a type of its own. That a place is below 2 ^ depth is asked by
// clause: a type for it would carry the vector.
#[derive(Clone, Copy)]
pub struct Vector<'a> {
    pub number: usize,
    pub source: &'a [u8],
    pub layout: Layout,
    pub table: &'a [Tree; 64],
    pub cipher: TreeCipher<'a>,
    ghost walking: { Walking number source.now layout table.now cipher.keys.now },
}

impl<'a> Vector<'a> {
    ghost use Rattle.ends_bench_leaves.specs.Inner.Made.{IsVector};

    // A vector of a noise record, with the table of its trees and the round keys of the child keys.
    pub fn of_noise(
        number: usize,
        accepted: NoiseRecord<'a>,
        table: &'a [Tree; 64],
        cipher: TreeCipher<'a>,
    ) -> Self
        requires noise { number ≡ 3 → ⊥ }
        requires trees { TreesIn accepted.source.now accepted.layout table.now accepted.layout.trees }
        requires own { OfChildKeys (2 ^ accepted.layout.branch_bits) (keys_for cipher.keys.now) }
        ensures { IsVector result number accepted.entry.source.now accepted.entry.layout }
    {
        Vector {
            number,
            source: accepted.source,
            layout: accepted.layout,
            table,
            cipher,
        }
    }

    // w0 of a scalar record, with the round keys of the child keys.
    pub fn of_scalar(
        accepted: ScalarRecord<'a>,
        table: &'a [Tree; 64],
        cipher: TreeCipher<'a>,
    ) -> Self
        requires { OfChildKeys (2 ^ accepted.layout.branch_bits) (keys_for cipher.keys.now) }
        ensures { IsVector result 3 accepted.entry.source.now accepted.entry.layout }
    {
        Vector {
            number: 3,
            source: accepted.source,
            layout: accepted.layout,
            table,
            cipher,
        }
    }
}
