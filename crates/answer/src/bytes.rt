// Slices tested byte by byte.
ghost use Rattle.std.specs.Prelude.{◌≡◌};
ghost use Rattle.answer.specs.Bytes.{any_above};

// Whether some byte is above a limit, by the largest of them.
pub fn any_above(limit: u8, bytes: &[u8]) -> bool
    ensures { result ≡ any_above limit bytes.now }
{
    let mut most: u8 = 0;
    for byte in bytes {
        most = most.max(*byte);
    }
    most > limit
}
