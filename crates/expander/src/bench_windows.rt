// The expansion for the bench under its exported names.
ghost use Rattle.std.specs.Prelude.{◌≡◌, [], ◌∷◌};
ghost use Rattle.page.specs.Document01 as document;
ghost use Rattle.page_two.specs.Document02 as document02;

use answer::{OneLength, TwoLengths};

// Writes a window of u and v from a noise record alone.
#[unsafe(no_mangle)]
pub extern "C" fn expander_noise_direct(
    source: &[u8],
    first: usize,
    count: usize,
    u_out: &mut [u64],
    v_out: &mut [u64],
) -> TwoLengths
    ensures { document.returned result.number (result.first_written ∷ result.second_written ∷ [])
        (source.now ∷ []) (u_out.new ∷ v_out.new ∷ [])
        ≡ document02.noise_direct source.now first count u_out.old v_out.old }
{
    ends_bench::noise_bench(source, first, count, u_out, v_out)
}

// Writes a window of w from a scalar record alone.
#[unsafe(no_mangle)]
pub extern "C" fn expander_scalar_direct(
    source: &[u8],
    first: usize,
    count: usize,
    w_out: &mut [u64],
) -> OneLength
    ensures { document.returned result.number (result.written ∷ []) (source.now ∷ []) (w_out.new ∷ [])
        ≡ document02.scalar_direct source.now first count w_out.old }
{
    ends_bench::scalar_bench(source, first, count, w_out)
}
