// Elements of field 2 as signed numbers of 64 bits, around the middle of the field. By the names that docs/PROMISES.md has (13.1), and
// not by `From` and `TryFrom`, which do not say around what.
ghost use Rattle.std.specs.Prelude.{◌≡◌};
ghost use Rattle.prime.specs.Signed.{to_signed, from_signed, prime_negate};

use crate::prime::Prime;

impl Prime {
    // The least and the greatest number that an element is read as, −(2^60 − 1) and 2^60 − 1.
    pub const LEAST: i64 = -1152921504606846975;

    pub const GREATEST: i64 = 1152921504606846975;

    // The element as a signed number: above the middle of the field, the element less p.
    pub fn to_signed(self) -> i64
        ensures { result ≡ to_signed self }
    {
        let element = Prime::reduce(self.word);
        let number = element.word as i64;
        if number <= Prime::GREATEST {
            number
        } else {
            number - (Prime::MODULUS as i64)
        }
    }

    // The negation modulo p.
    pub fn negate(self) -> Prime
        ensures { result ≡ prime_negate self }
    {
        Prime::ZERO.sub(self)
    }

    // The element that is read as a signed number, none for a number out of range.
    pub fn from_signed(amount: i64) -> Option<Prime>
        ensures { result ≡ from_signed amount }
    {
        if amount < Prime::LEAST || amount > Prime::GREATEST {
            return None;
        }
        let size = Prime {
            word: amount.unsigned_abs(),
        };
        Some(if amount < 0 { size.negate() } else { size })
    }
}
