// The scalar record.
ghost use Rattle.std.specs.Prelude.{◌≡◌};
ghost use Rattle.record.specs.Reading.{read_head, read_scalar};
ghost use Rattle.record.specs.Answer.{head_if_whole, record_read};

use crate::element::read_delta;
use answer::Refusal;
use record::{End, Layout};
use record_head::{read_head, skip};

// The scalar record, whole and tested. Δ begins the body, and the roots follow it.
pub fn read_scalar(source: &[u8]) -> Result<Layout, Refusal>
    ensures { record_read source.now result ≡ head_if_whole (read_scalar source.now) (read_head 2 source.now) }
{
    let layout = read_head(source, End::Scalar as u8)?;
    let (_, at) = read_delta(source, layout.body, layout.field)?;
    let end = skip(source, at, 16 * layout.trees)?;
    if end < source.len() {
        return Err(Refusal::BytesAfter);
    }
    Ok(layout)
}
