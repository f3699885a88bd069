// The sum of two accumulated vectors, under its exported name.
ghost use Rattle.std.specs.Prelude.{◌≡◌, [], ◌∷◌};
ghost use Rattle.page.specs.Document01 as document;
ghost use Rattle.page_two.specs.Document02 as document02;

use answer::OneLength;

// Adds `from` to `into`, word for word: exclusive or in field 1, modulo p in field 2.
#[unsafe(no_mangle)]
pub extern "C" fn expander_add(field: u8, from: &[u64], into: &mut [u64]) -> OneLength
    ensures { document.returned result.number (result.written ∷ []) (from.now ∷ []) (into.new ∷ [])
        ≡ document02.add field from.now into.old }
{
    layer_add::add(field as usize, from, into)
}
