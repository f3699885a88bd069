// Row x of u and v in field 1.
ghost use Rattle.std.specs.Prelude.{◌≡◌, ◌*◌, length};
ghost use Rattle.algebra.specs.Coding.{at};
ghost use Rattle.algebra.specs.Group.{itself};
ghost use Rattle.algebra.specs.Row.{output};
ghost use Rattle.aes128.specs.Inner.Words.{round_keys};
ghost use Rattle.field.specs.Binary.{binary, bit_ring, blocks};
ghost use Rattle.rows.specs.Inner.Sums.{BinaryAdded};
ghost use Rattle.code.specs.Inner.Rows.{binary_row};
ghost use Rattle.code.specs.Inner.Used.{row_below};

use crate::vectors::NoiseVectors;
use code_places::{Code, still_below};
use field::{Block, FieldElement, add_bits};
use rows::{Pair, Vectors, walk};

impl Vectors<Pair<u64, Block>> for NoiseVectors<'_> {
    ghost Fits = { λ shape s. (length s.noise.now ≡ shape.places) × (length s.v.now ≡ shape.places * 2) };

    ghost Added = { λ s j word sums r. BinaryAdded s.noise.now s.v.now j sums r };

    fn with_term(
        self,
        code: Code,
        i: usize,
        block: Block,
        sums: Pair<u64, Block>,
    ) -> Pair<u64, Block> {
        let j = code.place_of(i, block.low);
        let bit = self.noise[j];
        Pair {
            u: add_bits(sums.u, bit),
            v: sums.v.add(Block::at(self.v, j)),
            admitted: still_below(sums.admitted, bit, 2),
        }
    }
}

// Row x of u and v in field 1.
pub fn noise_row_binary(code: Code, x: usize, noise: &[u64], v: &[u64]) -> Pair<u64, Block>
    requires { (length noise.now ≡ code.shape.places) × (length v.now ≡ code.shape.places * 2) }
    ensures { (result.u ≡ output (itself bit_ring) (binary_row (round_keys code.entry.keys.now) code.entry.shape x) (at binary.noise_values noise.now))
        × (result.v ≡ output blocks (binary_row (round_keys code.entry.keys.now) code.entry.shape x) (at binary.elements v.now))
        × (result.admitted ≡ row_below 2 noise.now (round_keys code.entry.keys.now) code.entry.shape x) }
{
    let none = Pair {
        u: 0,
        v: Block::zero(),
        admitted: true,
    };
    walk(code, x, NoiseVectors { noise, v }, none)
}
