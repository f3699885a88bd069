// Both ends' pad calls on byte slices: two functions, since C calls both and each has a promise of its own on document 01's page. The
// cipher is made in both: it lends what stands in the function that makes it.
#![tactic(auto)]

ghost use Rattle.std.specs.Prelude.{◌≡◌};
ghost use Rattle.answer.specs.Outcome.{outcome_none};
ghost use Rattle.pads.specs.Calls.{lent_noise, lent_scalar, noise_pads, scalar_pads};

mod tests;

use aes_sbox::Tables;
use answer::ACCEPTED;
use pads::block_at;
use pads_rule::{PadCipher, pad_keys};
use pads_write::{write_both_pads, write_pads};
use tests::{check_noise, check_scalar};

// The noise end's pads: of each block of v, 16 bytes an output. The first output's index is `first`.
pub fn noise_pads(first: usize, count: usize, v: &[u8], choices: &[u8], pads: &mut [u8]) -> u32
    ensures { outcome_none result (lent_noise v.now choices.now pads.new)
        ≡ noise_pads first count v.now choices.now pads.old }
{
    if let Err(refusal) = check_noise(first, count, v, choices, pads.len()) {
        return refusal.number();
    }
    let mut words = [0u64; 1536];
    let keys = pad_keys();
    let cipher = PadCipher::new(Tables::fill(&mut words), &keys);
    write_pads(cipher, first, count, v, pads);
    ACCEPTED
}

// The scalar end's pads: of each block of w, then of its sum with Δ, 32 bytes an output. The first output's index is `first`.
pub fn scalar_pads(first: usize, count: usize, w: &[u8], delta: &[u8], pads: &mut [u8]) -> u32
    ensures { outcome_none result (lent_scalar w.now delta.now pads.new)
        ≡ scalar_pads first count w.now delta.now pads.old }
{
    if let Err(refusal) = check_scalar(first, count, w, delta, pads.len()) {
        return refusal.number();
    }
    let mut words = [0u64; 1536];
    let keys = pad_keys();
    let cipher = PadCipher::new(Tables::fill(&mut words), &keys);
    let d = block_at(delta, 0);
    write_both_pads(cipher, first, count, w, d, pads);
    ACCEPTED
}
