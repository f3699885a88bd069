// Field 2: words below p = 2^61 − 1.
ghost use Rattle.std.specs.Prelude.{◌≡◌, ◌<◌, ◌*◌, ◌%◌, ◌+◌, ◌/◌, ◌^◌, ◌≤◌};
ghost use Rattle.prime.specs.Prime.{modulus, prime, prime_zero, prime_one, prime_reduce, prime_add, prime_sub, prime_mul};

// An element of field 2.
#[derive(Clone, Copy)]
pub struct Prime {
    pub word: u64,
}

impl Prime {
    pub const MODULUS: u64 = 2305843009213693951;

    pub const ZERO: Prime = Prime { word: 0 };

    pub const ONE: Prime = Prime { word: 1 };

    // The constants as constructors too, whose contracts tie them to the definitions of laws (docs/PROMISES.md, 13.2).
    // The modulus p.
    pub fn modulus() -> u64
        ensures value { result ≡ modulus }
        ensures constant { result ≡ Prime.MODULUS }
    {
        Prime::MODULUS
    }

    // The zero of the element kind.
    pub fn zero() -> Prime
        ensures value { result ≡ prime_zero }
        ensures constant { result.word ≡ Prime.ZERO.word }
    {
        Prime::ZERO
    }

    // The one of the element kind.
    pub fn one() -> Prime
        ensures value { result ≡ prime_one }
        ensures constant { result.word ≡ Prime.ONE.word }
    {
        Prime::ONE
    }

    // Any word reduced modulo p.
    pub fn reduce(word: u64) -> Prime
        ensures { result ≡ prime_reduce word }
    {
        let folded = fold(word);
        if folded < Prime::MODULUS {
            Prime { word: folded }
        } else {
            Prime {
                word: folded - Prime::MODULUS,
            }
        }
    }

    // The sum modulo p.
    pub fn add(self, other: Prime) -> Prime
        ensures { result ≡ prime_add self other }
    {
        Prime::reduce(fold(self.word) + fold(other.word))
    }

    // The difference modulo p.
    pub fn sub(self, other: Prime) -> Prime
        ensures { result ≡ prime_sub self other }
    {
        let taken = Prime::reduce(other.word);
        Prime::reduce(fold(self.word) + (Prime::MODULUS - taken.word))
    }

    // The product modulo p.
    pub fn mul(self, other: Prime) -> Prime
        ensures { result ≡ prime_mul self other }
    {
        Prime::reduce(product(fold(self.word), fold(other.word)))
    }

    // A word that reduces to total + a × b. Which one is left to the program, so that a sum of products is reduced once, at its end.
    pub fn add_product(total: u64, a: u64, b: u64) -> u64
        ensures { prime_reduce result ≡ prime_add (prime total) (prime_mul (prime a) (prime b)) }
    {
        fold(total) + product(fold(a), fold(b))
    }
}

// A word with its bits from 61 on added to those below: the same modulo p, and at most p + 7.
fn fold(word: u64) -> u64
    ensures { result ≡ word / 2305843009213693952 + word % 2305843009213693952 }
{
    word / 2305843009213693952 + word % 2305843009213693952
}

// A word below 2^63 that equals a × b modulo p, for folded a and b, from halves of 31 bits: 2^62 is 2 and 2^61 is 1 modulo p.
fn product(a: u64, b: u64) -> u64
    requires { (a ≤ modulus + 7) × (b ≤ modulus + 7) }
    ensures { (result % modulus ≡ (a * b) % modulus) × (result < 2 ^ 63) }
{
    let a1 = a / 2147483648;
    let a0 = a % 2147483648;
    let b1 = b / 2147483648;
    let b0 = b % 2147483648;
    let m = a1 * b0 + a0 * b1;
    2 * (a1 * b1) + m / 1073741824 + (m % 1073741824) * 2147483648 + a0 * b0
}
