// The trees of a noise record: the noise values and the punctured trees added in place and accumulated.
ghost use Rattle.std.specs.Prelude.{◌≡◌, true, ◌*◌, ◌^◌, ◌≤◌, length};
ghost use Rattle.algebra.specs.Coding.{flat};
ghost use Rattle.algebra.specs.Sum.{accumulate};
ghost use Rattle.field.specs.Kind.{kind_of, element_words};
ghost use Rattle.number.specs.Inner.Known.{is_whole};
ghost use Rattle.record.specs.Content.{sibling_count};
ghost use Rattle.record.specs.Reading.{read_tree};
ghost use Rattle.ends.specs.Noise.Vectors.{mu, v0};
ghost use Rattle.ends.specs.Inner.Noise.{TreeRead, content_of};

use crate::accepted::NoiseRecord;
use aes_sbox::Tables;
use code_sums::{accumulate_elements, accumulate_noise};
use record::{Layout, Tree};
use record_reading::known_tree;
use tree::Punctured;
use tree_fill::add_punctured;
use tree_sums::zero_words;
use tree_walk::{TreeCipher, child_keys};

// The tree at a place of an accepted record, whose trees have `tree_siblings` siblings, after positions below `base`: its position is
// a leaf's, and its siblings lie in the record. It takes bytes and numbers and no `NoiseRecord`: docs/landings names it, and it holds
// wherever a tree was read.
pub fn tree_at(source: &[u8], layout: Layout, siblings: usize, at: usize, base: usize) -> Tree
    requires { (is_whole (read_tree layout.field layout.depth siblings base source.now at) ≡ true)
        × (layout.depth ≤ 16) × (siblings ≡ sibling_count layout.depth layout.branch_bits) }
    ensures { TreeRead source.now layout siblings at base result }
{
    known_tree(source, at, base, layout.field, layout.depth, siblings)
}

impl NoiseRecord<'_> {
    // Writes μ and v0: at each tree's position its noise value, and the leaves of all trees, of 2^g children a
    // node (document 02, 10), a tree's correction at its position.
    fn write_trees(&self, noise: &mut [u64], v: &mut [u64])
        requires { (length noise.old ≡ 2 ^ self.now.layout.depth) × (length v.old ≡ 2 ^ self.now.layout.depth * element_words self.now.layout.field) }
        ensures { (noise.new ≡ flat (kind_of self.now.layout.field).field.noise_values (2 ^ self.now.layout.depth)
            (mu (content_of self.now.source.now self.now.layout)))
            × (v.new ≡ flat (kind_of self.now.layout.field).field.elements (2 ^ self.now.layout.depth) (v0 (content_of self.now.source.now self.now.layout))) }
    {
        let layout = self.layout;
        let mut words = [0u64; 1536];
        let keys = child_keys(layout.branch_bits);
        let cipher = TreeCipher {
            tables: Tables::fill(&mut words),
            keys: &keys,
        };
        zero_words(noise);
        zero_words(v);
        for tree in self.trees() {
            noise[tree.position] = tree.value;
            let punctured = Punctured {
                branch_bits: layout.branch_bits,
                levels: layout.depth / layout.branch_bits,
                position: tree.position,
                at: tree.siblings,
            };
            add_punctured(
                cipher,
                layout.field,
                punctured,
                self.source,
                tree.correction,
                v,
            );
        }
    }

    // Writes the accumulated μ and v0.
    pub(crate) fn write_accumulated(&self, noise: &mut [u64], v: &mut [u64])
        requires { (length noise.old ≡ 2 ^ self.now.layout.depth) × (length v.old ≡ 2 ^ self.now.layout.depth * element_words self.now.layout.field) }
        ensures { (noise.new ≡ flat (kind_of self.now.layout.field).field.noise_values (2 ^ self.now.layout.depth)
            (accumulate (kind_of self.now.layout.field).field.ring.group (mu (content_of self.now.source.now self.now.layout))))
            × (v.new ≡ flat (kind_of self.now.layout.field).field.elements (2 ^ self.now.layout.depth)
            (accumulate (kind_of self.now.layout.field).field.scaled.group (v0 (content_of self.now.source.now self.now.layout)))) }
    {
        self.write_trees(noise, v);
        accumulate_elements(self.layout.field, v);
        accumulate_noise(self.layout.field, noise);
    }
}
