// The public calls under their exported names. Document 01's calls, here, cite its page (`crates/page/specs/Document01.antt`); the others,
// in files of their own, document 02's. Parameters and answers in all files are the C interface: `field` and `role` are
// bytes, a window is two numbers, and a number stands beside what an answer holds.
#![tactic(auto)]

ghost use Rattle.std.specs.Prelude.{◌≡◌, [], ◌∷◌};
ghost use Rattle.page.specs.Document01 as document;

mod and_triples;
mod bench_windows;
mod chosen_messages;
mod circuits;
mod layer_sums;
mod record_heads;
mod signed_amounts;
mod stocks;
mod versions;

use answer::{OneLength, TwoLengths};

// Deals both records from field, sizes, roots, positions, noise values, Δ, code key and label.
#[unsafe(no_mangle)]
pub extern "C" fn expander_deal(
    field: u8,
    depth: usize,
    branch_bits: usize,
    trees: usize,
    terms: usize,
    outputs: usize,
    roots: &[u8],
    positions: &[u32],
    values: &[u64],
    delta: &[u8],
    code_key: &[u8],
    label: &[u8],
    noise_record: &mut [u8],
    scalar_record: &mut [u8],
) -> TwoLengths
    ensures { document.returned result.number (result.first_written ∷ result.second_written ∷ [])
        (roots.now ∷ positions.now ∷ values.now ∷ delta.now ∷ code_key.now ∷ label.now ∷ [])
        (noise_record.new ∷ scalar_record.new ∷ [])
        ≡ document.deal
        (record {
          head = record {
            field = field;
            d = depth;
            g = branch_bits;
            t = trees;
            ℓ = terms;
            n = outputs;
            code_key = code_key.now;
            label = label.now;
          };
          roots = roots.now;
          positions = positions.now;
          values = values.now;
          Δ = delta.now;
        })
        noise_record.old scalar_record.old }
{
    dealing_call::deal(
        field,
        depth,
        branch_bits,
        trees,
        terms,
        outputs,
        roots,
        positions,
        values,
        delta,
        code_key,
        label,
        noise_record,
        scalar_record,
    )
}

// The noise end's offline call: the accumulated noise and v.
#[unsafe(no_mangle)]
pub extern "C" fn expander_noise_offline(
    source: &[u8],
    noise: &mut [u64],
    v: &mut [u64],
) -> TwoLengths
    ensures { document.returned result.number (result.first_written ∷ result.second_written ∷ [])
        (source.now ∷ []) (noise.new ∷ v.new ∷ [])
        ≡ document.noise_offline source.now noise.old v.old }
{
    ends_calls::noise::offline(source, noise, v)
}

// The scalar end's offline call: the accumulated w, and Δ.
#[unsafe(no_mangle)]
pub extern "C" fn expander_scalar_offline(
    source: &[u8],
    w: &mut [u64],
    delta: &mut [u64],
) -> TwoLengths
    ensures { document.returned result.number (result.first_written ∷ result.second_written ∷ [])
        (source.now ∷ []) (w.new ∷ delta.new ∷ [])
        ≡ document.scalar_offline source.now w.old delta.old }
{
    ends_calls::scalar::offline(source, w, delta)
}

// The noise end's online call: a window of u and v.
#[unsafe(no_mangle)]
pub extern "C" fn expander_noise_online(
    source: &[u8],
    noise: &[u64],
    v: &[u64],
    first: usize,
    count: usize,
    u_out: &mut [u64],
    v_out: &mut [u64],
) -> TwoLengths
    ensures { document.returned result.number (result.first_written ∷ result.second_written ∷ [])
        (source.now ∷ noise.now ∷ v.now ∷ []) (u_out.new ∷ v_out.new ∷ [])
        ≡ document.noise_online source.now noise.now v.now first count u_out.old v_out.old }
{
    ends_calls::noise::online(source, noise, v, first, count, u_out, v_out)
}

// The scalar end's online call: a window of w.
#[unsafe(no_mangle)]
pub extern "C" fn expander_scalar_online(
    source: &[u8],
    w: &[u64],
    first: usize,
    count: usize,
    w_out: &mut [u64],
) -> OneLength
    ensures { document.returned result.number (result.written ∷ []) (source.now ∷ w.now ∷ []) (w_out.new ∷ [])
        ≡ document.scalar_online source.now w.now first count w_out.old }
{
    ends_calls::scalar::online(source, w, first, count, w_out)
}

// The noise end's pads of a window.
#[unsafe(no_mangle)]
pub extern "C" fn expander_noise_pads(
    first: usize,
    count: usize,
    v: &[u8],
    choices: &[u8],
    pads: &mut [u8],
) -> u32
    ensures { document.returned result [] (v.now ∷ choices.now ∷ []) (pads.new ∷ [])
        ≡ document.noise_pads first count v.now choices.now pads.old }
{
    pads_calls::noise_pads(first, count, v, choices, pads)
}

// The scalar end's pads of a window, both messages of each output.
#[unsafe(no_mangle)]
pub extern "C" fn expander_scalar_pads(
    first: usize,
    count: usize,
    w: &[u8],
    delta: &[u8],
    pads: &mut [u8],
) -> u32
    ensures { document.returned result [] (w.now ∷ delta.now ∷ []) (pads.new ∷ [])
        ≡ document.scalar_pads first count w.now delta.now pads.old }
{
    pads_calls::scalar_pads(first, count, w, delta, pads)
}
