// Row x of u and v in field 2. The sums are folded term by term and reduced at the row's end.
ghost use Rattle.std.specs.Prelude.{◌&&◌, ◌≡◌, length};
ghost use Rattle.algebra.specs.Coding.{at};
ghost use Rattle.algebra.specs.Group.{itself};
ghost use Rattle.algebra.specs.Row.{output};
ghost use Rattle.aes128.specs.Inner.Words.{round_keys};
ghost use Rattle.prime.specs.Prime.{primes, prime_ring, modulus};
ghost use Rattle.rows.specs.Inner.Sums.{PrimesAdded};
ghost use Rattle.code.specs.Inner.Rows.{prime_row};
ghost use Rattle.code.specs.Inner.Used.{row_below};

use crate::vectors::NoiseVectors;
use code_places::{Code, still_below};
use field::Block;
use prime::Prime;
use rows::{Pair, Vectors, walk};

impl Vectors<Pair<u64, u64>> for NoiseVectors<'_> {
    ghost Fits = { λ shape s. (length s.noise.now ≡ shape.places) × (length s.v.now ≡ shape.places) };

    ghost Added = { λ s. PrimesAdded s.noise.now s.v.now };

    fn with_term(self, code: Code, i: usize, block: Block, sums: Pair<u64, u64>) -> Pair<u64, u64> {
        let j = code.place_of(i, block.low);
        let a = self.noise[j];
        let b = self.v[j];
        let below = still_below(sums.admitted, a, Prime::modulus());
        Pair {
            u: Prime::add_product(sums.u, block.high, a),
            v: Prime::add_product(sums.v, block.high, b),
            admitted: still_below(below, b, Prime::modulus()),
        }
    }
}

// Row x of u and v in field 2.
pub fn noise_row_prime(code: Code, x: usize, noise: &[u64], v: &[u64]) -> Pair<Prime, Prime>
    requires { (length noise.now ≡ code.shape.places) × (length v.now ≡ code.shape.places) }
    ensures { (result.u ≡ output (itself prime_ring) (prime_row (round_keys code.entry.keys.now) code.entry.shape x) (at primes.noise_values noise.now))
        × (result.v ≡ output (itself prime_ring) (prime_row (round_keys code.entry.keys.now) code.entry.shape x) (at primes.elements v.now))
        × (result.admitted ≡ (row_below modulus noise.now (round_keys code.entry.keys.now) code.entry.shape x
        && row_below modulus v.now (round_keys code.entry.keys.now) code.entry.shape x)) }
{
    let none = Pair {
        u: 0,
        v: 0,
        admitted: true,
    };
    let sums = walk(code, x, NoiseVectors { noise, v }, none);
    Pair {
        u: Prime::reduce(sums.u),
        v: Prime::reduce(sums.v),
        admitted: sums.admitted,
    }
}
