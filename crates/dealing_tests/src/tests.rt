// The tests of a dealing's input, in document 01's order: 1, 2, 3, 4, 5, 6.
ghost use Rattle.std.specs.Prelude.{◌≡◌, ◌^◌, ◌≤◌, min, length, []};
ghost use Rattle.answer.specs.Refused.{fault};
ghost use Rattle.answer.specs.Tests.{first_fault};
ghost use Rattle.record.specs.Admitted.{is_size, is_branch, most_outputs};
ghost use Rattle.dealing.specs.Inner.Steps.{input_from, Lengths};
ghost use Rattle.dealing.specs.Input.{positions_admitted, every_noise, delta_admitted, size_tests, length_tests, content_tests};
ghost use Rattle.dealing_tests.specs.Inner.Lent.{input_of};

use crate::input::Input;
use answer::{Refusal, is_times};
use field::{element_at, is_field, is_noise, is_scalar, rest_zero, word_at};
use record::{Layout, leaves};

// Whether a size is 1 to `top`. This and `is_branch` are tested in `record_head` too, of what is read, in a closure each: the definitions
// that both promise are those of `record` (`Admitted`).
fn is_size(top: usize, size: usize) -> bool
    ensures { result ≡ is_size top size }
{
    1 <= size && size <= top
}

// Whether g is 1, 2 or 3 and d a multiple of it (document 02, 10).
fn is_branch(depth: usize, branch_bits: usize) -> bool
    ensures { result ≡ is_branch depth branch_bits }
{
    is_size(3, branch_bits) && depth % branch_bits == 0
}

// Whether a count is 1 to the smaller of a limit and N. It and `is_outputs` stay beside `is_size`: by their names `check_sizes` reads as
// the document's list, a line a test.
fn is_count(limit: usize, depth: usize, count: usize) -> bool
    requires { depth ≤ 16 }
    ensures { result ≡ is_size (min limit (2 ^ depth)) count }
{
    is_size(limit.min(leaves(depth)), count)
}

// Whether n is 1 to N / 2.
fn is_outputs(depth: usize, outputs: usize) -> bool
    requires { depth ≤ 16 }
    ensures { result ≡ is_size (most_outputs depth) outputs }
{
    is_size(leaves(depth) / 2, outputs)
}

// Tests field, d, g, t, ℓ and n.
#[tactic(auto, using(answer::proofs::Faults::chain))]
pub fn check_sizes(layout: Layout) -> Result<(), Refusal>
    ensures { fault result ≡ first_fault (size_tests (input_from layout [] [] [] [] [] [])) }
{
    if !is_field(layout.field) {
        return Err(Refusal::BadField);
    }
    if !is_size(16, layout.depth) {
        return Err(Refusal::BadSize);
    }
    if !is_branch(layout.depth, layout.branch_bits) {
        return Err(Refusal::BadSize);
    }
    if !is_count(64, layout.depth, layout.trees) {
        return Err(Refusal::BadSize);
    }
    if !is_count(32, layout.depth, layout.terms) {
        return Err(Refusal::BadSize);
    }
    if !is_outputs(layout.depth, layout.outputs) {
        return Err(Refusal::BadSize);
    }
    Ok(())
}

// Tests that each slice has the length that the sizes call for.
#[tactic(auto, using(answer::proofs::Faults::chain))]
pub fn check_lengths(input: &Input) -> Result<(), Refusal>
    ensures { fault result ≡ first_fault (length_tests (input_of input.now)) }
{
    let Input {
        layout,
        roots,
        positions,
        values,
        delta,
        code_key,
        label,
    } = *input;
    if !is_times(roots.len(), 16, layout.trees) {
        return Err(Refusal::BadLength);
    }
    if positions.len() != layout.trees {
        return Err(Refusal::BadLength);
    }
    if values.len() != layout.trees {
        return Err(Refusal::BadLength);
    }
    if delta.len() != 16 {
        return Err(Refusal::BadLength);
    }
    if code_key.len() != 16 {
        return Err(Refusal::BadLength);
    }
    if label.len() != 16 {
        return Err(Refusal::BadLength);
    }
    Ok(())
}

// Whether the positions are strictly rising and below N. The loop carries the least that the next may be: pairs by `windows` would leave
// the first position to a test of its own.
fn rising(depth: usize, positions: &[u32]) -> bool
    requires { depth ≤ 16 }
    ensures { result ≡ positions_admitted (2 ^ depth) (length positions.now) positions.now }
{
    let all = leaves(depth);
    let mut base: usize = 0;
    for position in positions {
        let position = *position as usize;
        if position < base || all <= position {
            return false;
        }
        base = position + 1;
    }
    true
}

// Whether every noise value is admitted.
fn every_noise(field: usize, values: &[u64]) -> bool
    ensures { result ≡ every_noise field (length values.now) values.now }
{
    values.iter().all(|value| is_noise(field, *value))
}

// Whether Δ is admitted.
fn delta_admitted(field: usize, delta: &[u8]) -> bool
    requires { length delta.now ≡ 16 }
    ensures { result ≡ delta_admitted field delta.now }
{
    is_scalar(field, element_at(field, delta, 0)) && rest_zero(field, word_at(delta, 8))
}

// Tests positions, noise values and Δ.
#[tactic(auto, using(answer::proofs::Faults::chain))]
pub fn check_content(input: &Input) -> Result<(), Refusal>
    requires { Lengths input.now.layout (length input.now.positions.now) (length input.now.values.now)
        (length input.now.delta.now) }
    ensures { fault result ≡ first_fault (content_tests (input_of input.now)) }
{
    let layout = input.layout;
    if !rising(layout.depth, input.positions) {
        return Err(Refusal::BadPosition);
    }
    if !every_noise(layout.field, input.values) {
        return Err(Refusal::BadNoise);
    }
    if !delta_admitted(layout.field, input.delta) {
        return Err(Refusal::BadDelta);
    }
    Ok(())
}
