// The number code of records and circuits: reading and writing a number of at most three bytes. Readers and the writer take all bytes and a
// place in it, and give the place after: a place is no length of the slice, and the page's definitions go by places.
#![tactic(auto)]

ghost use Rattle.std.specs.Prelude.{true, ◌≡◌, ◌<◌, IfOk};
ghost use Rattle.number.specs.Reading.{Whole, read_byte};
ghost use Rattle.number.specs.Inner.Known.{is_whole};
ghost use Rattle.number.specs.Inner.Tested.{Tested};
ghost use Rattle.number.specs.Number.{write_number, read_number, number_length};
ghost use Rattle.number.specs.Inner.Written.{Room, Wrote, numbers};
ghost use Rattle.number.specs.Answer.{number_read};

use answer::Refusal;

// What was read, where it passes a test; else refused.
#[inline(always)]
pub fn tested<A: Copy, F: FnOnce(A) -> bool>(
    read: Result<(A, usize), Refusal>,
    refusal: Refusal,
    test: F,
) -> Result<(A, usize), Refusal>
    requires { IfOk read (λ r. F.pre test r.0) }
    ensures { Tested (F.post test) refusal read result }
{
    let (value, at) = read?;
    if !test(value) {
        return Err(refusal);
    }
    Ok((value, at))
}

// The byte at a place, and the place after it.
pub fn read_byte(source: &[u8], at: usize) -> Result<(usize, usize), Refusal>
    ensures value { number_read result ≡ read_byte source.now at }
    ensures byte { IfOk result (λ read. read.0 < 256) }
{
    if source.len() <= at {
        return Err(Refusal::RecordEnds);
    }
    Ok((source[at] as usize, at + 1))
}

// The number at a place, and the place after it. It reads its bytes itself: a longer number needs no place after its first byte then, and
// a loop over numbers takes one branch a turn (docs/DESIGN-PASS.md).
pub fn read_number(source: &[u8], at: usize) -> Result<(usize, usize), Refusal>
    ensures { number_read result ≡ read_number source.now at }
{
    if source.len() <= at {
        return Err(Refusal::RecordEnds);
    }
    let a = source[at] as usize;
    if a < 128 {
        return Ok((a, at + 1));
    }
    if source.len() < at + 2 {
        return Err(Refusal::RecordEnds);
    }
    let b = source[at + 1] as usize;
    if b < 128 {
        if b == 0 {
            return Err(Refusal::BadNumber);
        }
        return Ok((a - 128 + b * 128, at + 2));
    }
    if source.len() < at + 3 {
        return Err(Refusal::RecordEnds);
    }
    let c = source[at + 2] as usize;
    if c == 0 || 128 <= c {
        return Err(Refusal::BadNumber);
    }
    Ok((a - 128 + (b - 128) * 128 + c * 16384, at + 3))
}

// The number at a place where a number is known to stand, and the place after it.
pub fn known_number(source: &[u8], at: usize) -> (usize, usize)
    requires { is_whole (read_number source.now at) ≡ true }
    ensures { Whole result ≡ read_number source.now at }
{
    let Ok(known) = read_number(source, at) else {
        unreachable!()
    };
    known
}

// How many bytes the number takes.
pub fn number_length(n: usize) -> usize
    ensures { result ≡ number_length n }
{
    if n < 128 {
        return 1;
    }
    if n < 16384 {
        return 2;
    }
    3
}

// Writes the number from a place on; the place after it.
pub fn write_number(buffer: &mut [u8], at: usize, n: usize) -> usize
    requires { (n < numbers) × (Room buffer.old at (write_number n)) }
    ensures { Wrote buffer.old at (write_number n) result buffer.new }
{
    if n < 128 {
        buffer[at] = n as u8;
        return at + 1;
    }
    buffer[at] = (128 + n % 128) as u8;
    if n < 16384 {
        buffer[at + 1] = (n / 128) as u8;
        return at + 2;
    }
    buffer[at + 1] = (128 + n / 128 % 128) as u8;
    buffer[at + 2] = (n / 16384) as u8;
    at + 3
}
