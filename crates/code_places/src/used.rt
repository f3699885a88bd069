// Whether every word that a window's rows use is below a bound.
ghost use Rattle.std.specs.Prelude.{◌&&◌, ◌≡◌, ◌+◌, ◌≤◌, ltb, length};
ghost use Rattle.aes128.specs.Inner.Words.{round_keys};
ghost use Rattle.code.specs.Inner.Used.{row_below, used_below, all_below};

use crate::row::Code;
use code::Window;

// Whether every word is below the bound, where that is known of all but one.
pub fn still_below(others: bool, word: u64, bound: u64) -> bool
    ensures { result ≡ (others && ltb word bound) }
{
    others && word < bound
}

// Whether every word is below the bound, word by word.
fn each_below(words: &[u64], bound: u64) -> bool
    ensures { result ≡ all_below bound words.now }
{
    for word in words {
        if bound <= *word {
            return false;
        }
    }
    true
}

// Whether every word is below the bound, four words a turn: one a turn took 1.2 to 1.6 times as long in windows where this pass counts, as
// gcc and clang compile dist/expander.c; what `iter().all` takes, `are_elements` of `layer_add` says.
fn all_below(words: &[u64], bound: u64) -> bool
    ensures { result ≡ all_below bound words.now }
{
    let mut rest = words;
    while let [first, second, third, fourth, after @ ..] = rest {
        if bound <= *first {
            return false;
        }
        if bound <= *second {
            return false;
        }
        if bound <= *third {
            return false;
        }
        if bound <= *fourth {
            return false;
        }
        rest = after;
    }
    each_below(rest, bound)
}

// The rows and their terms go by two loops: `(0..n).all(..)` was tried, and the kit has no law of a range's `all`. Words and bound stay two
// parameters: one call tests the noise and another the elements of one code.
impl Code<'_> {
    // Whether every word at the places of row x is below the bound.
    fn row_below(self, x: usize, words: &[u64], bound: u64) -> bool
        requires { length words.now ≡ self.shape.places }
        ensures { result ≡ row_below bound words.now (round_keys self.entry.keys.now) self.entry.shape x }
    {
        for i in 0..self.shape.terms {
            let j = self.row_place(x, i);
            if bound <= words[j] {
                return false;
            }
        }
        true
    }

    // The test, row by row.
    fn rows_below(self, window: Window, words: &[u64], bound: u64) -> bool
        requires { (length words.now ≡ self.shape.places) × (window.first + window.count ≤ 32768) }
        ensures { result ≡ used_below bound words.now (round_keys self.entry.keys.now) self.entry.shape window }
    {
        for k in 0..window.count {
            if !self.row_below(window.first + k, words, bound) {
                return false;
            }
        }
        true
    }

    // The test, by a pass over all words where that is less work than the rows' ciphers; the rows are walked only if that
    // pass finds a word at the bound or above, or is not made. A term takes about as long as 100 words of the pass.
    pub fn used_below(self, window: Window, words: &[u64], bound: u64) -> bool
        requires { (length words.now ≡ self.shape.places) × (window.first + window.count ≤ 32768) }
        ensures { result ≡ used_below bound words.now (round_keys self.entry.keys.now) self.entry.shape window }
    {
        if self.shape.places / 100 <= window.count * self.shape.terms && all_below(words, bound) {
            return true;
        }
        self.rows_below(window, words, bound)
    }
}
