// AND triples: an end's three bits of each output, from its choices and pads in one pairing and its pairs of pads in another with
// the roles exchanged. The definitions and laws stand in crate `pads`.
#![tactic(auto)]

ghost use Rattle.std.specs.Prelude.{◌≡◌};
ghost use Rattle.answer.specs.Outcome.{outcome_one};
ghost use Rattle.pads.specs.Triples.Call.{lent_triples, triples};

mod form;
mod tests;

use answer::{ACCEPTED, OneLength};
use form::write_triples;
use tests::check;

// Forms the triple of each output, three bytes.
pub fn triples(choices: &[u8], pads: &[u8], pad_pairs: &[u8], triples_out: &mut [u8]) -> OneLength
    ensures { outcome_one result (lent_triples choices.now pads.now pad_pairs.now triples_out.new)
        ≡ triples (lent_triples choices.now pads.now pad_pairs.now triples_out.old) }
{
    if let Err(refusal) = check(choices, pads, pad_pairs, triples_out.len()) {
        return OneLength::refused(refusal);
    }
    write_triples(choices, pads, pad_pairs, triples_out);
    OneLength {
        number: ACCEPTED,
        written: 3 * choices.len(),
    }
}
