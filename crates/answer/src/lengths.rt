// Lengths of so many bytes an output, and windows, for any numbers: no product and no sum is taken. That a width is 1 at least is asked by
// clause: it is a constant of the caller's, or an element's width.
ghost use Rattle.std.specs.Prelude.{◌≡◌, ◌+◌, ◌*◌, ◌≤◌, ltb, eqb};

// Whether a length is `width` bytes an output.
pub fn is_times(len: usize, width: usize, count: usize) -> bool
    requires { 1 ≤ width }
    ensures { result ≡ eqb len (width * count) }
{
    len % width == 0 && len / width == count
}

// Whether a buffer is shorter than `width` bytes an output.
pub fn is_short(room: usize, width: usize, count: usize) -> bool
    requires { 1 ≤ width }
    ensures { result ≡ ltb room (width * count) }
{
    room / width < count
}

// Whether a window passes its end.
pub fn is_past(first: usize, count: usize, end: usize) -> bool
    ensures { result ≡ ltb end (first + count) }
{
    end < first || count > end - first
}
