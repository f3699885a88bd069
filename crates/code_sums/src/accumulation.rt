// Accumulating replaces place j by the sum of places 0 to j. By the field's number, which may be any (`BINARY` of `field` says why).
ghost use Rattle.std.specs.Prelude.{◌≡◌, ℕ, ◌*◌, ◌≤◌, length};
ghost use Rattle.algebra.specs.Coding.{CodingLaws, at, flat};
ghost use Rattle.algebra.specs.Sum.{accumulate};
ghost use Rattle.field.specs.Inner.Parts.{group_of};
ghost use Rattle.field.specs.Kind.{kind_of, element_words};

use field::{BINARY, Block, FieldElement};
use prime::Prime;

// Accumulates the values of a vector, of however many it is.
fn accumulate<E: FieldElement>(words: &mut [u64])
    requires coded { CodingLaws E.parts.coding }
    requires wide { 1 ≤ E.parts.coding.width }
    ensures { (count : ℕ) → length words.old ≡ count * E.parts.coding.width
        → words.new ≡ flat E.parts.coding count (accumulate (group_of E.parts) (at E.parts.coding words.old)) }
{
    let mut total = E::zero();
    for i in 0..E::count(words) {
        total = total.add(E::at(words, i));
        total.put(words, i);
    }
}

// Accumulates noise words of a field. It and the next stay two: in field 1 a noise word is a u64 and an element a `Block`, and noise words
// are as many as the words, which of elements only the caller knows.
pub fn accumulate_noise(field: usize, words: &mut [u64])
    ensures { words.new ≡ flat (kind_of field).field.noise_values (length words.old)
        (accumulate (kind_of field).field.ring.group (at (kind_of field).field.noise_values words.old)) }
{
    if field == BINARY {
        accumulate::<u64>(words);
    } else {
        accumulate::<Prime>(words);
    }
}

// Accumulates elements of a field, of however many the words are.
pub fn accumulate_elements(field: usize, words: &mut [u64])
    ensures { (count : ℕ) → length words.old ≡ count * element_words field → words.new ≡ flat (kind_of field).field.elements count
        (accumulate (kind_of field).field.scaled.group (at (kind_of field).field.elements words.old)) }
{
    if field == BINARY {
        accumulate::<Block>(words);
    } else {
        accumulate::<Prime>(words);
    }
}
