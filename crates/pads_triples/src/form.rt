// The triples of all outputs, written to the front of a buffer, three bytes each, as C is given them.
ghost use Rattle.std.specs.Prelude.{◌≡◌, ◌+◌, ◌*◌, ◌≤◌, ◌<◌, length};
ghost use Rattle.algebra.specs.Coding.{over};
ghost use Rattle.algebra.specs.Inner.Put.{with_value};
ghost use Rattle.pads.specs.Triples.Triple.{triple_bytes, triple_of};
ghost use Rattle.answer.specs.Tests.{AllMet};
ghost use Rattle.pads.specs.Triples.Call.{triples_tests};

// Writes the triple of output k.
fn put_triple(k: usize, choices: &[u8], pads: &[u8], pad_pairs: &[u8], triples: &mut [u8])
    requires { (k < length choices.now) × (16 * k + 16 ≤ length pads.now) × (32 * k + 32 ≤ length pad_pairs.now)
        × (3 * k + 3 ≤ length triples.old) }
    ensures { triples.new
        ≡ with_value triple_bytes triples.old (3 * k) (triple_of choices.now pads.now pad_pairs.now k) }
{
    let a = choices[k];
    let h = pads[16 * k] % 2;
    let r = pad_pairs[32 * k] % 2;
    let q = pad_pairs[32 * k + 16] % 2;
    let place = 3 * k;
    triples[place] = a;
    triples[place + 1] = r ^ q;
    triples[place + 2] = (a & (r ^ q)) ^ h ^ r;
}

// Writes the triple of each output. One loop with those of `pads_messages` would take a closure for its one line; the three slices are C's.
pub fn write_triples(choices: &[u8], pads: &[u8], pad_pairs: &[u8], triples_out: &mut [u8])
    requires { AllMet (triples_tests choices.now pads.now pad_pairs.now (length triples_out.old)) }
    ensures { triples_out.new
        ≡ over triple_bytes (length choices.now) (triple_of choices.now pads.now pad_pairs.now)
        triples_out.old }
{
    for k in 0..choices.len() {
        put_triple(k, choices, pads, pad_pairs, triples_out);
    }
}
