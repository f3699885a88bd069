// Whether two heads are those of one dealing.
ghost use Rattle.std.specs.Prelude.{◌≡◌, ◌+◌, ◌≤◌, length};
ghost use Rattle.record.specs.Answer.{head_of};
ghost use Rattle.record.specs.Reading.{block_at};
ghost use Rattle.pairing_tests.specs.Inner.Steps.{KeyIn, same_sizes};
ghost use Rattle.pairing.specs.Verdict.{same_list, same_dealing};

use record::Layout;
use window_tests::code_key_at;

// Whether the 16 bytes at a place of each record are equal.
fn same_block(a: &[u8], x: usize, b: &[u8], y: usize) -> bool
    requires { (x + 16 ≤ length a.now) × (y + 16 ≤ length b.now) }
    ensures { result ≡ same_list (block_at a.now x) (block_at b.now y) }
{
    a[x..x + 16] == b[y..y + 16]
}

// Whether field and sizes are all equal. No derived `==` of layouts, which would compare where the bodies begin, too.
fn same_sizes(p: Layout, q: Layout) -> bool
    ensures { result ≡ same_sizes p q }
{
    p.field == q.field
        && p.depth == q.depth
        && p.branch_bits == q.branch_bits
        && p.trees == q.trees
        && p.terms == q.terms
        && p.outputs == q.outputs
}

// Whether field, sizes, code key and label are all equal (document 02, 8). Each record stands beside its layout, as `window_tests` says.
pub fn same_dealing(noise_record: &[u8], p: Layout, scalar_record: &[u8], q: Layout) -> bool
    requires { KeyIn noise_record.now p × KeyIn scalar_record.now q }
    ensures { result ≡ same_dealing (head_of noise_record.now p) (head_of scalar_record.now q) }
{
    same_sizes(p, q)
        && same_block(noise_record, code_key_at(p), scalar_record, code_key_at(q))
        && same_block(noise_record, p.body - 16, scalar_record, q.body - 16)
}
