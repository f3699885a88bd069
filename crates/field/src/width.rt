// How many words an element takes, by the field's number, which may be any (`BINARY` says why).
ghost use Rattle.std.specs.Prelude.{◌≡◌};
ghost use Rattle.field.specs.Kind.{element_words};

use crate::BINARY;

// How many words an element of a field takes.
pub fn element_width(field: usize) -> usize
    ensures { result ≡ element_words field }
{
    if field == BINARY { 2 } else { 1 }
}
