// The trees of a noise record, read once a call.
ghost use Rattle.std.specs.Prelude.{◌≡◌, replicate};
ghost use Rattle.ends_bench_leaves.specs.Inner.Trees.{no_tree, TreesIn};

use ends_calls::NoiseRecord;
use field::Element;
use record::Tree;

// A table with no tree.
pub fn no_trees() -> [Tree; 64]
    ensures { result ≡ replicate 64 no_tree }
{
    let none = Tree {
        position: 0,
        value: 0,
        correction: Element { low: 0, high: 0 },
        siblings: 0,
    };
    [none; 64]
}

// The trees of an accepted record; those past them are zero.
pub fn tree_table(accepted: NoiseRecord) -> [Tree; 64]
    ensures { TreesIn accepted.entry.source.now accepted.entry.layout result accepted.entry.layout.trees }
{
    let mut table = no_trees();
    for (i, tree) in accepted.trees().enumerate() {
        table[i] = tree;
    }
    table
}
