// Where the walk to a leaf starts: at the tree's root, or at the sibling that the leaf follows from.
ghost use Rattle.std.specs.Prelude.{false, ◌||◌, ◌≡◌, ◌+◌, ◌^◌, ◌<◌};
ghost use Rattle.ends_bench_leaves.specs.Inner.Trees.{StartsAt, punctured_at};

use crate::vector::Vector;
use ends_calls::scalar::root_place;
use tree_walk::{Start, from_sibling};

impl Vector<'_> {
    // Whether tree i is punctured at j, which at the scalar end none is.
    pub(crate) fn punctured_at(&self, i: usize, j: usize) -> bool
        requires { i < 64 }
        ensures { result ≡ punctured_at self.now.number self.now.table.now i j }
    {
        self.number != 3 && self.table[i].position == j
    }

    // Whether tree i or the next is punctured at j.
    pub(crate) fn either_punctured(&self, i: usize, j: usize) -> bool
        requires { i + 1 < 64 }
        ensures { result ≡ (punctured_at self.now.number self.now.table.now i j || punctured_at self.now.number self.now.table.now (i + 1) j) }
    {
        self.punctured_at(i, j) || self.punctured_at(i + 1, j)
    }

    // Where the walk to leaf j of tree i starts, which is not punctured there.
    pub(crate) fn start_at(&self, i: usize, j: usize) -> Start
        requires { (i < self.now.layout.trees) × (j < 2 ^ self.now.layout.depth)
            × (punctured_at self.now.number self.now.table.now i j ≡ false) }
        ensures { StartsAt self.now.number self.now.source.now self.now.layout i j result }
    {
        let layout = self.layout;
        let levels = layout.depth / layout.branch_bits;
        if self.number == 3 {
            return Start {
                at: root_place(layout, i),
                left: levels,
            };
        }
        let tree = self.table[i];
        from_sibling(layout.branch_bits, levels, tree.position, j, tree.siblings)
    }
}
