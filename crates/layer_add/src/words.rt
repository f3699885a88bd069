// Words added to words.
ghost use Rattle.std.specs.Prelude.{◌≡◌, ◌<◌, length};
ghost use Rattle.std.specs.Int.Bits.{bit_xor};
ghost use Rattle.prime.specs.Prime.{modulus};
ghost use Rattle.layer_add.specs.Add.{prime_sum, word_sum, summed};
ghost use Rattle.layer_add.specs.Inner.{Addable, AreBelow};

use field::BINARY;

// In field 1, by exclusive or. Two loops of one line each: one over a closure would have to ask of it what `prime_sum` asks of each pair.
fn add_binary(from: &[u64], into: &mut [u64])
    requires { length from.now ≡ length into.old }
    ensures { into.new ≡ summed bit_xor from.now into.old }
{
    for k in 0..into.len() {
        into[k] = from[k] ^ into[k];
    }
}

// The sum of two words below p, modulo p, as the definition `prime_sum` has it, with no branch and no `Prime` made of either word: a sum
// of p or more has bit 61 once 1 is added, and is p less with that 1 and without that bit.
fn prime_sum(a: u64, b: u64) -> u64
    requires { (a < modulus) × (b < modulus) }
    ensures { result ≡ prime_sum a b }
{
    let sum = a + b;
    (sum + (sum + 1) / 2305843009213693952) % 2305843009213693952
}

// In field 2, modulo p.
fn add_prime(from: &[u64], into: &mut [u64])
    requires { (length from.now ≡ length into.old) × AreBelow from.now × AreBelow into.old }
    ensures { into.new ≡ summed prime_sum from.now into.old }
{
    for k in 0..into.len() {
        into[k] = prime_sum(from[k], into[k]);
    }
}

// In the field of a number.
pub fn add_words(field: usize, from: &[u64], into: &mut [u64])
    requires { Addable field from.now into.old }
    ensures { into.new ≡ summed (word_sum field) from.now into.old }
{
    if field == BINARY {
        add_binary(from, into);
    } else {
        add_prime(from, into);
    }
}
