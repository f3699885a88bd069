// What a record's head gives its windows: the code's shape, the words of a vector, and the code key. A record and its layout stay two, here
// and where windows are written: `read_noise` and `read_scalar`, which ARCHITECTURE.md names, give a layout without its record. So that the
// body has both keys before it is asked by clause, as `record::Layout` says of its sizes.
ghost use Rattle.std.specs.Prelude.{◌≡◌, ◌-◌, ◌*◌, ◌^◌, ◌≤◌, length};
ghost use Rattle.aes128.specs.Inner.Words.{round_keys};
ghost use Rattle.field.specs.Kind.{element_words};
ghost use Rattle.record.specs.Answer.{head_of};
ghost use Rattle.window.specs.Inner.Outputs.{code_keys, shape_of};

use aes128::schedule;
use code::Shape;
use field::element_width;
use record::{Layout, leaves};
use tree_walk::columns_at;

// The code's shape.
pub fn shape_of(layout: Layout) -> Shape
    requires { (layout.depth ≤ 16) × (1 ≤ layout.terms) }
    ensures { result ≡ shape_of layout }
{
    let places = leaves(layout.depth);
    Shape {
        places,
        terms: layout.terms,
        strip: places / layout.terms,
    }
}

// How many words N elements take.
pub fn vector_words(layout: Layout) -> usize
    requires { layout.depth ≤ 16 }
    ensures { result ≡ 2 ^ layout.depth * element_words layout.field }
{
    leaves(layout.depth) * element_width(layout.field)
}

// The place of the code key's 16 bytes, which the label's 16 follow (document 02, 8).
pub fn code_key_at(layout: Layout) -> usize
    requires { 32 ≤ layout.body }
    ensures { result ≡ layout.body - 32 }
{
    layout.body - 32
}

// The round keys of the code key.
pub fn code_keys(source: &[u8], layout: Layout) -> [u64; 40]
    requires { (32 ≤ layout.body) × (layout.body ≤ length source.now) }
    ensures { round_keys result ≡ code_keys (head_of source.now layout) }
{
    schedule(columns_at(source, code_key_at(layout)))
}
