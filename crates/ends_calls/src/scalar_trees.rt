// The trees of a scalar record added in place and accumulated, and Δ written.
ghost use Rattle.std.specs.Prelude.{◌≡◌, ◌++◌, ◌+◌, ◌*◌, ◌^◌, ◌≤◌, ◌<◌, length, drop};
ghost use Rattle.algebra.specs.Coding.{flat};
ghost use Rattle.algebra.specs.Sum.{accumulate};
ghost use Rattle.field.specs.Kind.{kind_of, element_words};
ghost use Rattle.ends.specs.Scalar.Vectors.{w0, delta_out};
ghost use Rattle.ends.specs.Inner.Scalar.{content_of, roots_at};

use crate::accepted::ScalarRecord;
use aes_sbox::Tables;
use code_sums::accumulate_elements;
use field::{element_at, element_width};
use record::Layout;
use tree_fill::add_leaves;
use tree_sums::zero_words;
use tree_walk::{TreeCipher, child_keys, columns_at};

// The place of root i, which stands after Δ.
pub fn root_place(layout: Layout, i: usize) -> usize
    requires { roots_at layout + 16 * i < 2 ^ 64 }
    ensures { result ≡ roots_at layout + 16 * i }
{
    layout.body + 8 * element_width(layout.field) + 16 * i
}

impl ScalarRecord<'_> {
    // Writes w0: the leaves of all trees, of 2^g children a node (document 02, 10).
    fn write_trees(&self, w: &mut [u64])
        requires { length w.old ≡ 2 ^ self.now.layout.depth * element_words self.now.layout.field }
        ensures { w.new ≡ flat (kind_of self.now.layout.field).field.elements (2 ^ self.now.layout.depth) (w0 (content_of self.now.source.now self.now.layout)) }
    {
        let layout = self.layout;
        let mut words = [0u64; 1536];
        let keys = child_keys(layout.branch_bits);
        let cipher = TreeCipher {
            tables: Tables::fill(&mut words),
            keys: &keys,
        };
        zero_words(w);
        let levels = layout.depth / layout.branch_bits;
        for i in 0..layout.trees {
            let root = columns_at(self.source, root_place(layout, i));
            add_leaves(cipher, layout.field, layout.branch_bits, levels, root, w);
        }
    }

    // Writes the accumulated w0.
    pub(crate) fn write_accumulated(&self, w: &mut [u64])
        requires { length w.old ≡ 2 ^ self.now.layout.depth * element_words self.now.layout.field }
        ensures { w.new ≡ flat (kind_of self.now.layout.field).field.elements (2 ^ self.now.layout.depth)
            (accumulate (kind_of self.now.layout.field).field.scaled.group (w0 (content_of self.now.source.now self.now.layout))) }
    {
        self.write_trees(w);
        accumulate_elements(self.layout.field, w);
    }

    // Writes the two words of Δ: two in either field (`delta_out`), where `put_element` writes bytes.
    pub(crate) fn write_delta(&self, delta: &mut [u64])
        requires { 2 ≤ length delta.old }
        ensures { delta.new ≡ delta_out (content_of self.now.source.now self.now.layout) ++ drop 2 delta.old }
    {
        let value = element_at(self.layout.field, self.source, self.layout.body);
        delta[0] = value.low;
        delta[1] = value.high;
    }
}
