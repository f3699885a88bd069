// The trees of an accepted noise record, one after the other.
ghost use Rattle.ends_calls.specs.Inner.Left.{TreesLeft};

use crate::accepted::NoiseRecord;
use crate::noise_trees::tree_at;
use record::{Tree, sibling_count};

// The trees that are left, from a place on, after positions below `base`.
#[derive(Drop)]
pub struct Trees<'a> {
    record: NoiseRecord<'a>,
    siblings: usize,
    at: usize,
    base: usize,
    left: usize,
    ghost rest: { TreesLeft record.source.now record.layout siblings at base left },
}

impl<'a> NoiseRecord<'a> {
    ghost use Rattle.std.specs.Prelude.{◌≡◌};
    ghost use Rattle.ends.specs.Inner.Noise.{tree_siblings};

    // All its trees.
    pub fn trees(&self) -> Trees<'a>
        ensures { (result.record ≡ self.now) × (result.siblings ≡ tree_siblings self.now.layout) × (result.at ≡ self.now.layout.body)
            × (result.base ≡ 0) × (result.left ≡ self.now.layout.trees) }
    {
        let layout = self.layout;
        Trees {
            record: *self,
            siblings: sibling_count(layout.depth, layout.branch_bits),
            at: layout.body,
            base: 0,
            left: layout.trees,
        }
    }
}

impl Iterator for Trees<'_> {
    ghost use Rattle.std.specs.Iterator.{at_most};
    ghost use Rattle.ends_calls.specs.Inner.Trees.{GivesTree};

    type Item = Tree;

    ghost next_gives = { GivesTree };

    ghost remaining = { λ s. at_most s.left };

    fn next(&mut self) -> Option<Tree> {
        if self.left == 0 {
            return None;
        }
        let record = self.record;
        let tree = tree_at(
            record.source,
            record.layout,
            self.siblings,
            self.at,
            self.base,
        );
        self.left -= 1;
        self.at = tree.siblings + 16 * self.siblings;
        self.base = tree.position + 1;
        Some(tree)
    }
}
