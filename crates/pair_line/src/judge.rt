// What is found of two records, in memory of its own. A record and its layout stay two parameters: the calls made here (`offline`, `online`)
// take the record's bytes and read them again, and `same_dealing` takes layouts alone.
ghost use Rattle.std.specs.Prelude.{◌≡◌, ◌^◌, ◌≤◌, length};
ghost use Rattle.ends.specs.Inner.Noise as noise;
ghost use Rattle.ends.specs.Inner.Scalar as scalar;
ghost use Rattle.pairing.specs.Answer.{verdict_of};
ghost use Rattle.pairing_tests.specs.Inner.Steps.{Paired, NoiseOutputs, ScalarOutputs};
ghost use Rattle.pairing.specs.Verdict.{Checked, verdict};

use answer::Refusal;
use pairing::Finding;
use pairing_tests::{count_held, same_dealing};
use record::{Layout, leaves};
use record_reading::{read_noise, read_scalar};

// The leaves that there is memory for.
const MOST_LEAVES: usize = 1024;

// Writes u and v at every output of an accepted noise record. The arrays are those of PROMISES.md, 13.9, and the call says how much of
// each it filled. Each end has its calls, its outputs and its promise, so this and the next stay two.
fn noise_outputs(source: &[u8], layout: Layout, u_out: &mut [u64], v_out: &mut [u64])
    requires { noise.Ready source.now layout × (2 ^ layout.depth ≤ 1024) × (length u_out.old ≡ 512) × (length v_out.old ≡ 1024) }
    ensures { NoiseOutputs source.now layout u_out.new v_out.new }
{
    let mut noise = [0u64; 1024];
    let mut v = [0u64; 2048];
    let lengths = ends_calls::noise::offline(source, &mut noise, &mut v);
    let noise_words = lengths.first_written;
    let v_words = lengths.second_written;
    ends_calls::noise::online(
        source,
        &noise[..noise_words],
        &v[..v_words],
        0,
        layout.outputs,
        u_out,
        v_out,
    );
}

// Writes w at every output of an accepted scalar record, and Δ.
fn scalar_outputs(source: &[u8], layout: Layout, w_out: &mut [u64], delta: &mut [u64])
    requires { scalar.Ready source.now layout × (2 ^ layout.depth ≤ 1024) × (length w_out.old ≡ 1024) × (length delta.old ≡ 2) }
    ensures { ScalarOutputs source.now layout w_out.new delta.new }
{
    let mut w = [0u64; 2048];
    let lengths = ends_calls::scalar::offline(source, &mut w, delta);
    let w_words = lengths.first_written;
    ends_calls::scalar::online(source, &w[..w_words], 0, layout.outputs, w_out);
}

// How many outputs hold, for two accepted records of one dealing.
fn held_outputs(noise_record: &[u8], p: Layout, scalar_record: &[u8], q: Layout) -> usize
    requires ready { noise.Ready noise_record.now p × scalar.Ready scalar_record.now q }
    requires paired { Paired noise_record.now p scalar_record.now q }
    ensures { Checked p.outputs result ≡ verdict noise_record.now scalar_record.now }
{
    let mut u = [0u64; 512];
    let mut v = [0u64; 1024];
    let mut w = [0u64; 1024];
    let mut delta = [0u64; 2];
    noise_outputs(noise_record, p, &mut u, &mut v);
    scalar_outputs(scalar_record, q, &mut w, &mut delta);
    count_held(p.field, &delta, &u, &v, &w, p.outputs)
}

// Two accepted records are too large, of different dealings, or checked, in that order.
fn compare(noise_record: &[u8], p: Layout, scalar_record: &[u8], q: Layout) -> Finding
    requires { noise.Ready noise_record.now p × scalar.Ready scalar_record.now q }
    ensures { verdict_of (Ok result) ≡ verdict noise_record.now scalar_record.now }
{
    if MOST_LEAVES < leaves(p.depth) || MOST_LEAVES < leaves(q.depth) {
        return Finding::TooLarge;
    }
    if !same_dealing(noise_record, p, scalar_record, q) {
        return Finding::Different;
    }
    Finding::Checked(p.outputs, held_outputs(noise_record, p, scalar_record, q))
}

// A record is refused, or both are compared.
pub fn judge(noise_record: &[u8], scalar_record: &[u8]) -> Result<Finding, Refusal>
    ensures { verdict_of result ≡ verdict noise_record.now scalar_record.now }
{
    let p = read_noise(noise_record)?;
    let q = read_scalar(scalar_record)?;
    Ok(compare(noise_record, p, scalar_record, q))
}
