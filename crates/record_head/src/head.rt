// The head of a record, which both ends share.
ghost use Rattle.std.specs.Prelude.{◌≡◌, ◌+◌, ◌≤◌, ◌<◌, leb, length};
ghost use Rattle.number.specs.Answer.{number_read};
ghost use Rattle.record.specs.Reading.{read_size, read_branch, read_field, read_after_depth, read_sizes, read_head};
ghost use Rattle.record.specs.Inner.Answers.{reading_of, skipped};
ghost use Rattle.record.specs.Answer.{record_read};

use answer::Refusal;
use field::is_field;
use number::{read_byte, read_number, tested};
use record::{Layout, leaves};

// Whether a record has a count of bytes from a place on. `answer::is_past` says the opposite of a window; readers and their laws speak of
// what is there.
fn has_bytes(source: &[u8], at: usize, count: usize) -> bool
    ensures { result ≡ leb (at + count) (length source.now) }
{
    count <= source.len() && at <= source.len() - count
}

// The place after a field of a count of bytes.
pub fn skip(source: &[u8], at: usize, count: usize) -> Result<usize, Refusal>
    ensures { reading_of result ≡ skipped count source.now at }
{
    if !has_bytes(source, at, count) {
        return Err(Refusal::RecordEnds);
    }
    Ok(at + count)
}

// A size of 1 to `top`, and the place after it.
fn read_size(source: &[u8], at: usize, top: usize) -> Result<(usize, usize), Refusal>
    ensures { number_read result ≡ read_size top source.now at }
{
    tested(read_number(source, at), Refusal::BadSize, |size| {
        1 <= size && size <= top
    })
}

// g: 1, 2 or 3, and a divisor of d; and the place after it.
fn read_branch(source: &[u8], at: usize, depth: usize) -> Result<(usize, usize), Refusal>
    ensures { number_read result ≡ read_branch depth source.now at }
{
    tested(read_size(source, at, 3), Refusal::BadSize, |branch_bits| {
        depth % branch_bits == 0
    })
}

// The field, from the end byte and the field byte, and the place after them.
fn read_field(source: &[u8], end: u8) -> Result<(usize, usize), Refusal>
    ensures { number_read result ≡ read_field end source.now }
{
    let (_, at) = tested(read_byte(source, 0), Refusal::WrongEnd, |byte| {
        byte == end as usize
    })?;
    tested(
        read_byte(source, at),
        Refusal::BadField,
        |field| is_field(field),
    )
}

// g, t, ℓ, n, the code key and the label, after d.
fn read_after_depth(source: &[u8], at: usize, field: usize, depth: usize) -> Result<Layout, Refusal>
    requires { depth ≤ 16 }
    ensures { record_read source.now result ≡ read_after_depth field depth source.now at }
{
    let all = leaves(depth);
    let (branch_bits, at) = read_branch(source, at, depth)?;
    let (trees, at) = read_size(source, at, all.min(64))?;
    let (terms, at) = read_size(source, at, all.min(32))?;
    let (outputs, at) = read_size(source, at, all / 2)?;
    let body = skip(source, at, 32)?;
    Ok(Layout {
        field,
        depth,
        branch_bits,
        trees,
        terms,
        outputs,
        body,
    })
}

// d, then the rest of the head.
fn read_sizes(source: &[u8], at: usize, field: usize) -> Result<Layout, Refusal>
    ensures { record_read source.now result ≡ read_sizes field source.now at }
{
    let (depth, at) = read_size(source, at, 16)?;
    read_after_depth(source, at, field, depth)
}

// The head of a record of the end with this byte. A byte and no `End`, as ARCHITECTURE.md names it: the answer is promised for every byte.
pub fn read_head(source: &[u8], end: u8) -> Result<Layout, Refusal>
    ensures { record_read source.now result ≡ read_head end source.now }
{
    let (field, at) = read_field(source, end)?;
    read_sizes(source, at, field)
}
