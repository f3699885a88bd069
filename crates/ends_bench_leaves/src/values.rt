// The value of a vector at a place: μ by the positions, v0 and w0 by a walk in each tree, two trees at a time.
ghost use Rattle.std.specs.Prelude.{◌≡◌, ◌+◌, ◌^◌, ◌<◌};
ghost use Rattle.field.specs.Kind.{kind_of};
ghost use Rattle.field.specs.Inner.Elements.{element_in};
ghost use Rattle.ends_bench_leaves.specs.Inner.Vectors.{element_value, leaf_of, leaves_of, values_of};
ghost use Rattle.ends_bench_leaves.specs.Inner.Trees.{TwoStarts, two_leaves, noise_word};

use crate::vector::Vector;
use crate::walk::{Levels, walk_two};
use field::{Element, element_sum, leaf_element};
use tree_walk::{Start, node_at, walk_to};

impl Vector<'_> {
    // The element of leaf j of tree i, walked alone; the correction stands in for a punctured leaf.
    fn leaf_of(&self, i: usize, j: usize) -> Element
        requires { (i < self.now.layout.trees) × (j < 2 ^ self.now.layout.depth) }
        ensures { element_in self.now.layout.field result ≡ leaf_of self.now.number self.now.source.now self.now.layout i j }
    {
        if self.punctured_at(i, j) {
            return self.table[i].correction;
        }
        let layout = self.layout;
        let start = self.start_at(i, j);
        let node = node_at(self.source, start.at);
        let leaf = walk_to(self.cipher, layout.branch_bits, start.left, 0, node, j);
        leaf_element(layout.field, leaf.columns())
    }

    // The sum of the elements of leaf j below two blocks. Two walks in alternation, as the bench has one engine for both
    // (docs/DECISIONS.md), and not two of `leaf_of`, whose ciphers would run one after the other.
    fn two_walked(&self, a: Start, b: Start, j: usize) -> Element
        requires { TwoStarts self.now.source.now self.now.layout self.now.cipher.keys.now a b }
        ensures { element_in self.now.layout.field result ≡ two_leaves self.now.source.now self.now.layout a b j }
    {
        let field = self.layout.field;
        let levels = Levels {
            branch_bits: self.layout.branch_bits,
            one: a.left,
            other: b.left,
        };
        let one = node_at(self.source, a.at);
        let other = node_at(self.source, b.at);
        let leaves = walk_two(self.cipher, levels, one, other, j);
        element_sum(
            field,
            leaf_element(field, leaves.one.columns()),
            leaf_element(field, leaves.other.columns()),
        )
    }

    // The sum of the elements of leaf j of trees i and i + 1.
    fn two_leaves(&self, i: usize, j: usize) -> Element
        requires { (i + 1 < self.now.layout.trees) × (j < 2 ^ self.now.layout.depth) }
        ensures { element_in self.now.layout.field result
            ≡ (kind_of self.now.layout.field).field.scaled.group.add (leaf_of self.now.number self.now.source.now self.now.layout i j)
            (leaf_of self.now.number self.now.source.now self.now.layout (i + 1) j) }
    {
        if self.either_punctured(i, j) {
            return element_sum(
                self.layout.field,
                self.leaf_of(i, j),
                self.leaf_of(i + 1, j),
            );
        }
        let a = self.start_at(i, j);
        let b = self.start_at(i + 1, j);
        self.two_walked(a, b, j)
    }

    // The sum of the elements of leaf j of all trees.
    fn leaves_sum(&self, j: usize) -> Element
        requires { j < 2 ^ self.now.layout.depth }
        ensures { element_in self.now.layout.field result
            ≡ leaves_of self.now.number self.now.source.now self.now.layout self.now.layout.trees j }
    {
        let field = self.layout.field;
        let trees = self.layout.trees;
        let mut total = Element { low: 0, high: 0 };
        for pair in 0..trees / 2 {
            total = element_sum(field, total, self.two_leaves(2 * pair, j));
        }
        if trees % 2 == 0 {
            return total;
        }
        element_sum(field, total, self.leaf_of(trees - 1, j))
    }

    // μ at place j: the last tree there counts, as in `noise_word`.
    fn noise_at(&self, j: usize) -> u64
        ensures { result ≡ noise_word self.now.table.now self.now.layout.trees j }
    {
        let mut noise: u64 = 0;
        let table = self.table;
        for tree in &table[..self.layout.trees] {
            if tree.position == j {
                noise = tree.value;
            }
        }
        noise
    }

    // The vector's value at place j. μ's word is made an `Element` here: a `From` of a word would say of any word that it is a noise value.
    pub fn value_at(&self, j: usize) -> Element
        requires { j < 2 ^ self.now.layout.depth }
        ensures { element_value self.now.number self.now.layout.field result
            ≡ values_of self.now.number self.now.source.now self.now.layout j }
    {
        if self.number == 1 {
            return Element {
                low: self.noise_at(j),
                high: 0,
            };
        }
        self.leaves_sum(j)
    }
}
