// The test of the words that a window's rows use.
ghost use Rattle.std.specs.Prelude.{◌≡◌, length};
ghost use Rattle.aes128.specs.Inner.Words.{round_keys};
ghost use Rattle.field.specs.Kind.{kind_of, element_words};
ghost use Rattle.window.specs.Head.{of_noise};
ghost use Rattle.window.specs.Inner.Testing.{Testing, EndTesting, elements_used};
ghost use Rattle.window.specs.Inner.Written.{all_used};

use code_places::Code;
use field::BINARY;
use prime::Prime;
use window::{Accumulated, WindowRows};

// Whether every word that the rows use is an element. In field 1 every word is.
fn elements_used(code: Code, rows: WindowRows, words: &[u64]) -> bool
    requires { Testing (element_words rows.field) code.shape rows (length words.now) }
    ensures { result ≡ elements_used (kind_of rows.field).field (round_keys code.entry.keys.now) code.entry.shape rows words.now }
{
    if rows.field == BINARY {
        return true;
    }
    code.used_below(rows.window, words, Prime::modulus())
}

// Whether every word of the noise that the rows use is a noise value. In field 2 noise values are elements.
fn noise_used(code: Code, rows: WindowRows, noise: &[u64]) -> bool
    requires { Testing 1 code.shape rows (length noise.now) }
    ensures { result ≡ elements_used (of_noise (kind_of rows.field).field) (round_keys code.entry.keys.now) code.entry.shape rows noise.now }
{
    if rows.field == BINARY {
        return code.used_below(rows.window, noise, 2);
    }
    elements_used(code, rows, noise)
}

// Whether every word that the rows use is a noise value or an element.
pub fn all_used(code: Code, rows: WindowRows, vectors: Accumulated) -> bool
    requires { EndTesting (element_words rows.field) code.shape rows vectors }
    ensures { result ≡ all_used (round_keys code.entry.keys.now) code.entry.shape rows vectors.entry }
{
    match vectors {
        Accumulated::Noise { noise, v } => {
            noise_used(code, rows, noise) && elements_used(code, rows, v)
        }
        Accumulated::Scalar { w } => elements_used(code, rows, w),
    }
}
