// The sum of two vectors of words, in either field: layers of one source are added by it. The field is the number that C passes, and `add`
// promises its answer for every one; both slices are C's too, and `check` tests their lengths.
#![tactic(auto)]

ghost use Rattle.std.specs.Prelude.{◌≡◌};
ghost use Rattle.answer.specs.Outcome.{outcome_one};
ghost use Rattle.layer_add.specs.Add.{lent_add, add};

mod number;
mod words;

use answer::{ACCEPTED, OneLength};
use number::check;
use words::add_words;

// Adds words to others, word for word.
pub fn add(field: usize, from: &[u64], into: &mut [u64]) -> OneLength
    ensures { outcome_one result (lent_add from.now into.new)
        ≡ add field (lent_add from.now into.old) }
{
    if let Err(refusal) = check(field, from, into) {
        return OneLength::refused(refusal);
    }
    add_words(field, from, into);
    OneLength {
        number: ACCEPTED,
        written: into.len(),
    }
}
