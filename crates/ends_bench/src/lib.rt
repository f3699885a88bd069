// The expansion for the bench: a window's outputs as rows of the code matrix times μ, v0 or w0, each leaf walked from its root or
// sibling alone, with no accumulated vector and no buffer of N. A refused call writes nothing. Each end has a function, since C calls each by
// promises of its own.
#![tactic(auto)]

ghost use Rattle.std.specs.Prelude.{◌≡◌};
ghost use Rattle.answer.specs.Outcome.{outcome_one, outcome_two};
ghost use Rattle.ends.specs.Noise.Bench as noise;
ghost use Rattle.ends.specs.Scalar.Bench as scalar;

mod accepted;
mod batch;
mod entries;

use accepted::{write_noise, write_scalar};
use answer::{OneLength, TwoLengths};
use code::Window;
use ends_calls::{NoiseRecord, ScalarRecord};

// Writes the window's outputs: u to the front of u_out, v to the front of v_out.
pub fn noise_bench(
    source: &[u8],
    first: usize,
    count: usize,
    u_out: &mut [u64],
    v_out: &mut [u64],
) -> TwoLengths
    ensures { outcome_two result (noise.lent_with source.now u_out.new v_out.new)
        ≡ noise.bench_expansion (noise.lent_with source.now u_out.old v_out.old) first count }
{
    match NoiseRecord::read(source) {
        Ok(accepted) => write_noise(accepted, Window { first, count }, u_out, v_out),
        Err(refusal) => TwoLengths::refused(refusal),
    }
}

// Writes the window's outputs: w to the front of w_out.
pub fn scalar_bench(source: &[u8], first: usize, count: usize, w_out: &mut [u64]) -> OneLength
    ensures { outcome_one result (scalar.lent_with source.now w_out.new)
        ≡ scalar.bench_expansion (scalar.lent_with source.now w_out.old) first count }
{
    match ScalarRecord::read(source) {
        Ok(accepted) => write_scalar(accepted, Window { first, count }, w_out),
        Err(refusal) => OneLength::refused(refusal),
    }
}
