// The call's tests, in their order.
ghost use Rattle.std.specs.Prelude.{◌≡◌, ltb};
ghost use Rattle.std.specs.List.{list_all};
ghost use Rattle.answer.specs.Refused.{fault};
ghost use Rattle.answer.specs.Tests.{first_fault};
ghost use Rattle.prime.specs.Prime.{modulus};
ghost use Rattle.layer_add.specs.Add.{lent_add, are_words, add_tests};

use answer::Refusal;
use field::{BINARY, is_field};
use prime::Prime;

// Whether every word is below p, two words a turn: `iter().all` took 0.43 to 0.65 ns a word, where a loop over two took 0.33, on x86-64
// as LLVM compiles it.
fn are_elements(words: &[u64]) -> bool
    ensures { result ≡ list_all (λ word. ltb word modulus) words.now }
{
    let mut rest = words;
    while let [first, second, after @ ..] = rest {
        if *first >= Prime::MODULUS {
            return false;
        }
        if *second >= Prime::MODULUS {
            return false;
        }
        rest = after;
    }
    match rest {
        [last, ..] => *last < Prime::MODULUS,
        [] => true,
    }
}

// Whether every word may be added: each in field 1, those below p in field 2.
fn are_words(field: usize, words: &[u64]) -> bool
    ensures { result ≡ are_words field words.now }
{
    field == BINARY || are_elements(words)
}

// The first test that is not met.
#[tactic(auto, using(answer::proofs::Faults::chain))]
pub fn check(field: usize, from: &[u64], into: &[u64]) -> Result<(), Refusal>
    ensures { fault result ≡ first_fault (add_tests field (lent_add from.now into.now)) }
{
    if !is_field(field) {
        return Err(Refusal::BadField);
    }
    if from.len() != into.len() {
        return Err(Refusal::BadLength);
    }
    if !are_words(field, from) {
        return Err(Refusal::NotElement);
    }
    if !are_words(field, into) {
        return Err(Refusal::NotElement);
    }
    Ok(())
}
