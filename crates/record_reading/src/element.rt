// The elements of a record: noise values, corrections and Δ, each with the place after it.
ghost use Rattle.std.specs.Prelude.{◌≡◌, IfOk};
ghost use Rattle.field.specs.Kind.{element_words};
ghost use Rattle.number.specs.Answer.{number_read};
ghost use Rattle.record.specs.Reading.{read_words, read_value, read_correction, read_delta};
ghost use Rattle.record.specs.Inner.Answers.{word_field, element_read, SecondIn};

use answer::Refusal;
use field::{
    Element, element_at, element_length, is_element, is_noise, is_scalar, one_noise, word_at,
};
use number::tested;
use record_head::skip;

// A word.
fn read_word(source: &[u8], at: usize) -> Result<(u64, usize), Refusal>
    ensures { number_read result ≡ word_field source.now at }
{
    let next = skip(source, at, 8)?;
    Ok((word_at(source, at), next))
}

// The words of an element, tested by nothing; its second word is 0 where it has one.
fn read_words(source: &[u8], at: usize, field: usize) -> Result<(Element, usize), Refusal>
    ensures value { element_read field result ≡ read_words (element_words field) source.now at }
    ensures second { IfOk result (λ read. SecondIn field read.0) }
{
    let next = skip(source, at, element_length(field))?;
    Ok((element_at(field, source, at), next))
}

// The noise value of a tree; where it is always 1 it takes no bytes.
pub fn read_value(source: &[u8], at: usize, field: usize) -> Result<(u64, usize), Refusal>
    ensures { number_read result ≡ read_value field source.now at }
{
    if one_noise(field) {
        return Ok((1, at));
    }
    tested(read_word(source, at), Refusal::BadNoise, |value| {
        is_noise(field, value)
    })
}

// The correction of a tree.
pub fn read_correction(source: &[u8], at: usize, field: usize) -> Result<(Element, usize), Refusal>
    ensures value { element_read field result ≡ read_correction field source.now at }
    ensures second { IfOk result (λ read. SecondIn field read.0) }
{
    tested(
        read_words(source, at, field),
        Refusal::NotElement,
        |correction| is_element(field, correction),
    )
}

// Δ.
pub fn read_delta(source: &[u8], at: usize, field: usize) -> Result<(Element, usize), Refusal>
    ensures { element_read field result ≡ read_delta field source.now at }
{
    tested(read_words(source, at, field), Refusal::BadDelta, |delta| {
        is_scalar(field, delta)
    })
}
