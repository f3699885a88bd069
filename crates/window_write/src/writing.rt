// A window written if its words pass their test, else nothing: a small one from memory of its own, a larger one after its test.
ghost use Rattle.std.specs.Prelude.{◌++◌, ◌≡◌, ◌≤◌, length, take, drop};
ghost use Rattle.aes128.specs.Inner.Words.{round_keys};
ghost use Rattle.field.specs.Kind.{element_words};
ghost use Rattle.record.specs.Answer.{head_of};
ghost use Rattle.window.specs.Inner.Outputs.{code_keys, rows_of, shape_of};
ghost use Rattle.window.specs.Inner.Sizes.{Sizes};
ghost use Rattle.window.specs.Inner.Testing.{EndFitting};
ghost use Rattle.window.specs.Inner.Written.{WindowWritten};

use crate::used::all_used;
use aes_sbox::Tables;
use answer::Refusal;
use code::Window;
use code_places::Code;
use field::element_width;
use record::Layout;
use window::{Accumulated, WindowRows};
use window_rows::walk_rows;
use window_tests::{code_keys, shape_of};

// Writes a window of at most 32 outputs, if the words that its rows use are noise values and elements, or refuses: one walk of the rows
// tests and sums them in memory of its own, from where the window is copied. The memory is fixed, as no heap is used: the most words that
// 32 outputs take.
fn write_small(
    code: Code,
    rows: WindowRows,
    vectors: Accumulated,
    u_out: &mut [u64],
    out: &mut [u64],
) -> Result<(), Refusal>
    requires small { rows.window.count ≤ 32 }
    requires fitting { EndFitting (element_words rows.field) code.shape rows vectors (length u_out.old) (length out.old) }
    ensures { WindowWritten (round_keys code.entry.keys.now) code.entry.shape rows vectors.entry u_out.old out.old result u_out.new out.new }
{
    let mut u_own = [0u64; 32];
    let mut own = [0u64; 64];
    walk_rows(code, rows, vectors, &mut u_own, &mut own)?;
    let count = rows.window.count;
    let words = count * element_width(rows.field);
    out[..words].copy_from_slice(&own[..words]);
    if let Accumulated::Noise { .. } = vectors {
        u_out[..count].copy_from_slice(&u_own[..count]);
    }
    Ok(())
}

// Writes any window, if the words that its rows use are noise values and elements, or refuses: one of more than 32 outputs is tested
// before its rows are walked to write it.
fn write_tested(
    code: Code,
    rows: WindowRows,
    vectors: Accumulated,
    u_out: &mut [u64],
    out: &mut [u64],
) -> Result<(), Refusal>
    requires fitting { EndFitting (element_words rows.field) code.shape rows vectors (length u_out.old) (length out.old) }
    ensures { WindowWritten (round_keys code.entry.keys.now) code.entry.shape rows vectors.entry u_out.old out.old result u_out.new out.new }
{
    if rows.window.count <= 32 {
        return write_small(code, rows, vectors, u_out, out);
    }
    if !all_used(code, rows, vectors) {
        return Err(Refusal::NotElement);
    }
    walk_rows(code, rows, vectors, u_out, out)
}

// Writes a window of any size under a record's code key, or refuses it. The scalar end's buffer for u may be empty.
pub fn write_rows(
    source: &[u8],
    layout: Layout,
    window: Window,
    vectors: Accumulated,
    u_out: &mut [u64],
    out: &mut [u64],
) -> Result<(), Refusal>
    requires sizes { Sizes source.now (head_of source.now layout) layout.body }
    requires fitting { EndFitting (element_words layout.field) (shape_of layout) (rows_of layout window) vectors (length u_out.old) (length out.old) }
    ensures { WindowWritten (code_keys (head_of source.now layout)) (shape_of layout) (rows_of layout window) vectors.entry
        u_out.old out.old result u_out.new out.new }
{
    let mut words = [0u64; 1536];
    let tables = Tables::fill(&mut words);
    let keys = code_keys(source, layout);
    let code = Code::new(tables, &keys, shape_of(layout));
    let rows = WindowRows {
        field: layout.field,
        window,
    };
    write_tested(code, rows, vectors, u_out, out)
}
