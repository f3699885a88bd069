// Labels compare as LE numbers. A derived order, or one of the arrays, would go by the first byte in which they differ, and not by the
// last, and C of all machines has no number of 16 bytes.
ghost use Rattle.std.specs.Prelude.{◌≡◌, eqb, ltb};
ghost use Rattle.stock.specs.Label.{number_of};

use stock::Label;

// Whether a label is above another one: the highest byte in which they differ decides.
pub fn is_above(label: Label, other: Label) -> bool
    ensures { result ≡ ltb (number_of other) (number_of label) }
{
    for at in (0..16).rev() {
        let a = label.bytes[at];
        let b = other.bytes[at];
        if a != b {
            return b < a;
        }
    }
    false
}

// Whether two labels are the same.
pub fn is_same(label: Label, other: Label) -> bool
    ensures { result ≡ eqb (number_of label) (number_of other) }
{
    label == other
}
