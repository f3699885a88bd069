// Row x of w in field 1.
ghost use Rattle.std.specs.Prelude.{◌≡◌, ◌*◌, length};
ghost use Rattle.algebra.specs.Coding.{at};
ghost use Rattle.algebra.specs.Row.{output};
ghost use Rattle.aes128.specs.Inner.Words.{round_keys};
ghost use Rattle.field.specs.Binary.{binary, blocks};
ghost use Rattle.rows.specs.Inner.Sums.{BlockAdded};
ghost use Rattle.code.specs.Inner.Rows.{binary_row};

use crate::vector::ScalarVector;
use code_places::Code;
use field::{Block, FieldElement};
use rows::{Vectors, walk};

impl Vectors<Block> for ScalarVector<'_> {
    ghost Fits = { λ shape s. length s.w.now ≡ shape.places * 2 };

    ghost Added = { λ s j word. BlockAdded s.w.now j word };

    fn with_term(self, code: Code, i: usize, block: Block, sums: Block) -> Block {
        sums.add(Block::at(self.w, code.place_of(i, block.low)))
    }
}

// Row x of w in field 1.
pub fn scalar_row_binary(code: Code, x: usize, w: &[u64]) -> Block
    requires { length w.now ≡ code.shape.places * 2 }
    ensures { result ≡ output blocks (binary_row (round_keys code.entry.keys.now) code.entry.shape x) (at binary.elements w.now) }
{
    walk(code, x, ScalarVector { w }, Block::zero())
}
