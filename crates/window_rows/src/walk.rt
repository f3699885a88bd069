// A window's outputs written and its words tested in one walk of its rows. The buffers stay two parameters: as a struct of `&mut` they would
// be lent anew for each row. So `EndFitting`, which is of the shape, the rows, the vectors and both buffers, is asked by clause: no type
// holds all that it is of. Code, rows and vectors go on as they came: a struct of the three would be made in `write_rows` and taken apart in
// each function below, which needs its parts. That k is a row of the window
// is asked by clause: a type for it would carry the window.
ghost use Rattle.std.specs.Prelude.{◌≡◌, ◌<◌, length};
ghost use Rattle.aes128.specs.Inner.Words.{round_keys};
ghost use Rattle.algebra.specs.Choice.{choose};
ghost use Rattle.answer.specs.Numbers.{accepted, not_element};
ghost use Rattle.answer.specs.Refused.{fault};
ghost use Rattle.field.specs.Kind.{kind_of, binary_kind, prime_kind, element_words};
ghost use Rattle.window.specs.Inner.Testing.{EndFitting};
ghost use Rattle.window.specs.Inner.Written.{RowWritten, Filled, all_used};

use answer::Refusal;
use code_places::Code;
use field::{BINARY, FieldElement};
use rows_noise::{noise_row_binary, noise_row_prime};
use rows_scalar::{scalar_row_binary, scalar_row_prime};
use window::{Accumulated, WindowRows};

// Writes output k of the window in field 1, at the noise end with its word of u; whether every word of the noise that the row uses
// is a bit. Field 2 has its own below: a trait over both fields' rows would be longer than the two.
fn write_binary(
    code: Code,
    rows: WindowRows,
    k: usize,
    vectors: Accumulated,
    u_out: &mut [u64],
    out: &mut [u64],
) -> bool
    requires row { k < rows.window.count }
    requires fitting { EndFitting 2 code.shape rows vectors (length u_out.old) (length out.old) }
    ensures { RowWritten binary_kind (round_keys code.entry.keys.now) code.entry.shape rows k vectors.entry u_out.old out.old result u_out.new out.new }
{
    let x = rows.window.first + k;
    match vectors {
        Accumulated::Noise { noise, v } => {
            let pair = noise_row_binary(code, x, noise, v);
            u_out[k] = pair.u;
            pair.v.put(out, k);
            pair.admitted
        }
        Accumulated::Scalar { w } => {
            let element = scalar_row_binary(code, x, w);
            element.put(out, k);
            true
        }
    }
}

// The same in field 2; whether every word that the row uses is an element.
fn write_prime(
    code: Code,
    rows: WindowRows,
    k: usize,
    vectors: Accumulated,
    u_out: &mut [u64],
    out: &mut [u64],
) -> bool
    requires row { k < rows.window.count }
    requires fitting { EndFitting 1 code.shape rows vectors (length u_out.old) (length out.old) }
    ensures { RowWritten prime_kind (round_keys code.entry.keys.now) code.entry.shape rows k vectors.entry u_out.old out.old result u_out.new out.new }
{
    let x = rows.window.first + k;
    match vectors {
        Accumulated::Noise { noise, v } => {
            let pair = noise_row_prime(code, x, noise, v);
            u_out[k] = pair.u.word;
            out[k] = pair.v.word;
            pair.admitted
        }
        Accumulated::Scalar { w } => {
            let row = scalar_row_prime(code, x, w);
            out[k] = row.w.word;
            row.admitted
        }
    }
}

// Writes row k of a window in the field of the rows; whether every word that the row uses is admitted. A bool, since the walk goes on
// after a word that is not.
fn write_row(
    code: Code,
    rows: WindowRows,
    k: usize,
    vectors: Accumulated,
    u_out: &mut [u64],
    out: &mut [u64],
) -> bool
    requires row { k < rows.window.count }
    requires fitting { EndFitting (element_words rows.field) code.shape rows vectors (length u_out.old) (length out.old) }
    ensures { RowWritten (kind_of rows.field) (round_keys code.entry.keys.now) code.entry.shape rows k vectors.entry
        u_out.old out.old result u_out.new out.new }
{
    if rows.field == BINARY {
        return write_binary(code, rows, k, vectors, u_out, out);
    }
    write_prime(code, rows, k, vectors, u_out, out)
}

// Writes the window's elements, at the noise end with its words of u; refuses if a word that its rows use is no noise value or no element.
pub fn walk_rows(
    code: Code,
    rows: WindowRows,
    vectors: Accumulated,
    u_out: &mut [u64],
    out: &mut [u64],
) -> Result<(), Refusal>
    requires fitting { EndFitting (element_words rows.field) code.shape rows vectors (length u_out.old) (length out.old) }
    ensures told { fault result ≡ choose (all_used (round_keys code.entry.keys.now) code.entry.shape rows vectors.entry) accepted not_element }
    ensures filled { Filled (round_keys code.entry.keys.now) code.entry.shape rows vectors.entry u_out.old out.old u_out.new out.new }
{
    let mut passed = true;
    for k in 0..rows.window.count {
        let admitted = write_row(code, rows, k, vectors, u_out, out);
        passed = passed & admitted;
    }
    if passed {
        Ok(())
    } else {
        Err(Refusal::NotElement)
    }
}
