// How many outputs hold, from the words of u, v, w and Δ.
ghost use Rattle.std.specs.Prelude.{◌≡◌, ◌+◌, ◌*◌, ◌≤◌, ◌<◌, length};
ghost use Rattle.field.specs.Kind.{kind_of};
ghost use Rattle.pairing_tests.specs.Inner.Steps.{holds_at, held_words};

use field::{element_of, element_scaled, element_sum, same_element};

// Whether w = Δu + v at output x.
fn holds_at(field: usize, delta: &[u64], u: &[u64], v: &[u64], w: &[u64], x: usize) -> bool
    requires { (2 ≤ length delta.now) × (x < length u.now) × (x * 2 + 2 ≤ length v.now) × (x * 2 + 2 ≤ length w.now) }
    ensures { result ≡ holds_at (kind_of field).field delta.now u.now v.now w.now x }
{
    let scalar = element_of(field, delta, 0);
    let multiple = element_scaled(field, u[x], scalar);
    let right = element_sum(field, multiple, element_of(field, v, x));
    same_element(field, element_of(field, w, x), right)
}

// How many of the first outputs hold, counted by a `for`: no index is. Their count stands beside the words, which have room for the most outputs.
pub fn count_held(
    field: usize,
    delta: &[u64],
    u: &[u64],
    v: &[u64],
    w: &[u64],
    outputs: usize,
) -> usize
    requires { (2 ≤ length delta.now) × (outputs ≤ length u.now) × (outputs * 2 ≤ length v.now) × (outputs * 2 ≤ length w.now) }
    ensures { result ≡ held_words (kind_of field).field delta.now u.now v.now w.now outputs }
{
    let mut held = 0;
    for x in 0..outputs {
        if holds_at(field, delta, u, v, w, x) {
            held += 1;
        }
    }
    held
}
