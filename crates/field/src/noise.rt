// Fields by their number, which may be any (`BINARY` says why), and noise values of either field as one word: which are admitted,
// coefficients and sums.
ghost use Rattle.std.specs.Prelude.{◌≡◌};
ghost use Rattle.field.specs.ByNumber.{is_field, is_noise, one_noise};
ghost use Rattle.field.specs.Kind.{kind_of};
ghost use Rattle.field.specs.Inner.Elements.{noise_in, noise_sum};

use crate::block::add_bits;
use crate::{BINARY, PRIME};
use prime::Prime;

// Whether a number is a field's.
pub fn is_field(field: usize) -> bool
    ensures { result ≡ is_field field }
{
    field == BINARY || field == PRIME
}

// Whether 1 is the only noise value that is admitted, so that records do not write it.
pub fn one_noise(field: usize) -> bool
    ensures { result ≡ one_noise field }
{
    field == BINARY
}

// Whether a noise value is admitted.
pub fn is_noise(field: usize, value: u64) -> bool
    ensures { result ≡ is_noise field value }
{
    if field == BINARY {
        value == 1
    } else {
        1 <= value && value <= Prime::MODULUS - 1
    }
}

// The coefficient of a term's word.
pub fn coefficient(field: usize, word: u64) -> u64
    ensures { noise_in field result ≡ (kind_of field).coefficient word }
{
    if field == BINARY {
        1
    } else {
        Prime::reduce(word).word
    }
}

// The sum of two noise values.
pub fn noise_sum(field: usize, a: u64, b: u64) -> u64
    ensures { result ≡ noise_sum field a b }
{
    if field == BINARY {
        add_bits(a, b)
    } else {
        Prime { word: a }.add(Prime { word: b }).word
    }
}
