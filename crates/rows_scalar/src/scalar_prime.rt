// Row x of w in field 2. The sum is folded term by term and reduced at the row's end.
ghost use Rattle.std.specs.Prelude.{◌≡◌, length};
ghost use Rattle.algebra.specs.Coding.{at};
ghost use Rattle.algebra.specs.Group.{itself};
ghost use Rattle.algebra.specs.Row.{output};
ghost use Rattle.aes128.specs.Inner.Words.{round_keys};
ghost use Rattle.prime.specs.Prime.{primes, prime_ring, modulus};
ghost use Rattle.rows.specs.Inner.Sums.{PrimeAdded};
ghost use Rattle.code.specs.Inner.Rows.{prime_row};
ghost use Rattle.code.specs.Inner.Used.{row_below};

use crate::vector::ScalarVector;
use code_places::{Code, still_below};
use field::Block;
use prime::Prime;
use rows::{Single, Vectors, walk};

impl Vectors<Single<u64>> for ScalarVector<'_> {
    ghost Fits = { λ shape s. length s.w.now ≡ shape.places };

    ghost Added = { λ s. PrimeAdded s.w.now };

    fn with_term(self, code: Code, i: usize, block: Block, sums: Single<u64>) -> Single<u64> {
        let word = self.w[code.place_of(i, block.low)];
        Single {
            w: Prime::add_product(sums.w, block.high, word),
            admitted: still_below(sums.admitted, word, Prime::modulus()),
        }
    }
}

// Row x of w in field 2.
pub fn scalar_row_prime(code: Code, x: usize, w: &[u64]) -> Single<Prime>
    requires { length w.now ≡ code.shape.places }
    ensures { (result.w ≡ output (itself prime_ring) (prime_row (round_keys code.entry.keys.now) code.entry.shape x) (at primes.elements w.now))
        × (result.admitted ≡ row_below modulus w.now (round_keys code.entry.keys.now) code.entry.shape x) }
{
    let none = Single {
        w: 0,
        admitted: true,
    };
    let sum = walk(code, x, ScalarVector { w }, none);
    Single {
        w: Prime::reduce(sum.w),
        admitted: sum.admitted,
    }
}
