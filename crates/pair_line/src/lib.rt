// The pair program's work: from the bytes of both records to the line that it prints. Its definitions and laws stand in crate `pairing`.
#![tactic(auto)]

ghost use Rattle.std.specs.Prelude.{◌≡◌, [], ◌∷◌};
ghost use Rattle.page.specs.Document01 as document;

mod judge;
mod text;

use judge::judge;
use text::write_finding;

// Writes the line of two records over the front of `out`, and returns its length: a buffer and a length, as the page's `line` has them, for
// there is no heap.
pub fn line(noise_record: &[u8], scalar_record: &[u8], out: &mut [u8; 64]) -> usize
    ensures { document.returned 0 (result ∷ []) (noise_record.now ∷ scalar_record.now ∷ []) (out.new ∷ [])
        ≡ document.line noise_record.now scalar_record.now out.old }
{
    write_finding(judge(noise_record, scalar_record), out)
}
