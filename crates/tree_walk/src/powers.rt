// Powers of two.
ghost use Rattle.std.specs.Prelude.{◌≡◌, ◌^◌, ◌<◌};

// A power of two. `record::leaves`, which ARCHITECTURE.md names, says the same of a depth, and neither crate stands on the other: each body
// is one shift.
pub fn power(bits: usize) -> usize
    requires { bits < 64 }
    ensures { result ≡ 2 ^ bits }
{
    1usize << bits
}
