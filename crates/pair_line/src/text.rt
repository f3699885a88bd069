// The line of a finding, written over the front of a buffer.
ghost use Rattle.std.specs.Prelude.{◌≡◌, ◌≤◌, length};
ghost use Rattle.number.specs.Inner.Written.{Room, Wrote};
ghost use Rattle.pairing.specs.Line.{digits, printed};
ghost use Rattle.pairing.specs.Answer.{verdict_of};

use answer::Refusal;
use pairing::Finding;
use record::write_bytes;

// Writes the decimal digits of a number, at most `left` + 1 of them, and returns the place after them.
// By hand: `write!` says what it wrote only where it succeeds, and `printed` of `write_finding` is to hold in every case.
fn write_digits(out: &mut [u8], at: usize, left: usize, x: usize) -> usize
    requires { Room out.old at (digits left x) }
    ensures { Wrote out.old at (digits left x) result out.new }
{
    if left == 0 {
        out[at] = (48 + x % 10) as u8;
        return at + 1;
    }
    if x < 10 {
        out[at] = (48 + x) as u8;
        return at + 1;
    }
    let end = write_digits(out, at, left - 1, x / 10);
    out[end] = (48 + x % 10) as u8;
    end + 1
}

// Writes the line of what is found, and returns its length.
pub fn write_finding(found: Result<Finding, Refusal>, out: &mut [u8]) -> usize
    requires { 64 ≤ length out.old }
    ensures { (out.new, result) ≡ printed (verdict_of found) out.old }
{
    match found {
        Err(refusal) => {
            let at = write_bytes(out, 0, b"refused ");
            write_digits(out, at, 9, refusal.number() as usize)
        }
        Ok(Finding::TooLarge) => write_bytes(out, 0, b"too large"),
        Ok(Finding::Different) => write_bytes(out, 0, b"different dealing"),
        Ok(Finding::Checked(tried, held)) => {
            let at = write_bytes(out, 0, b"checked ");
            let at = write_digits(out, at, 9, tried);
            let at = write_bytes(out, at, b" held ");
            write_digits(out, at, 9, held)
        }
    }
}
