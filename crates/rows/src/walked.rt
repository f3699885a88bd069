// A row of the code walked term by term, for any sums.
ghost use Rattle.std.specs.Prelude.{◌≡◌, ◌<◌, ℕ};
ghost use Rattle.code.specs.declared.Shape.{Shape};
ghost use Rattle.code.specs.Inner.Rows.{place_by};
ghost use Rattle.rows.specs.Inner.Walked.{Walked};

use aes_rows::{share, two_blocks};
use code_places::Code;
use field::Block;

// What a row adds up at one end in one field: the vectors that it is lent, with sums of type S over them.
pub trait Vectors<S: Copy>: Copy {
    // The vectors are as long as the code's shape asks for.
    ghost Fits: { Shape → Self → Type 0 };

    // The second sums are the first with the values at a place added, times what a coefficient's word says.
    ghost Added: { Self → ℕ → ℕ → S → S → Type 0 };

    // The sums with term i added, by its block.
    fn with_term(self, code: Code, i: usize, block: Block, sums: S) -> S
        requires { (i < code.shape.terms) × Fits code.shape self }
        ensures { Added self (place_by code.entry.shape i block.low) block.high sums result };
}

// The sums of row x, from `start` on. Two terms' blocks are made at a time.
pub fn walk<S: Copy, V: Vectors<S>>(code: Code, x: usize, vectors: V, start: S) -> S
    requires { V.Fits code.shape vectors }
    ensures { Walked (V.Added vectors) code.entry.keys.now code.entry.shape x start code.entry.shape.terms result }
{
    let shared = share(code.tables, code.keys, x as u64);
    let mut sums = start;
    for i in (0..code.shape.terms).step_by(2) {
        let pair = two_blocks(code.tables, code.keys, x as u64, shared, i as u64);
        let next = vectors.with_term(code, i, pair.one, sums);
        sums = if i + 1 < code.shape.terms {
            vectors.with_term(code, i + 1, pair.other, next)
        } else {
            next
        };
    }
    sums
}
