// The call that forms AND triples, by its exported name.
ghost use Rattle.std.specs.Prelude.{◌≡◌, [], ◌∷◌};
ghost use Rattle.page.specs.Document01 as document;
ghost use Rattle.page_two.specs.Document02 as document02;

use answer::OneLength;

// An end's triples, from its choices and pads in one pairing and its pairs of pads in another.
#[unsafe(no_mangle)]
pub extern "C" fn expander_triples(
    choices: &[u8],
    pads: &[u8],
    pad_pairs: &[u8],
    triples_out: &mut [u8],
) -> OneLength
    ensures { document.returned result.number (result.written ∷ [])
        (choices.now ∷ pads.now ∷ pad_pairs.now ∷ []) (triples_out.new ∷ [])
        ≡ document02.triples choices.now pads.now pad_pairs.now triples_out.old }
{
    pads_triples::triples(choices, pads, pad_pairs, triples_out)
}
