// Accepted records, each of its bytes and the numbers of its head. A struct for each end: the facts differ, and so do the functions on them.
ghost use Rattle.std.specs.Prelude.{◌+◌, ◌*◌, ◌≤◌, length};
ghost use Rattle.record.specs.Answer.{head_of};
ghost use Rattle.window.specs.Inner.Sizes.{Sizes};
ghost use Rattle.ends.specs.Inner.Scalar.{roots_at};
ghost use Rattle.ends_calls.specs.Inner.Accepted.{NoiseAccepted, ScalarAccepted};

use answer::Refusal;
use record::Layout;
use record_reading::{read_noise, read_scalar};

// An accepted noise record.
#[derive(Clone, Copy)]
pub struct NoiseRecord<'a> {
    pub source: &'a [u8],
    pub layout: Layout,
    ghost accepted: { NoiseAccepted source.now layout },
    ghost sizes: { Sizes source.now (head_of source.now layout) layout.body },
}

impl<'a> NoiseRecord<'a> {
    ghost use Rattle.ends_calls.specs.Inner.Reads.{NoiseRead};

    // The record, whole and tested.
    pub fn read(source: &'a [u8]) -> Result<Self, Refusal>
        ensures { NoiseRead source.now result }
    {
        let layout = read_noise(source)?;
        Ok(NoiseRecord { source, layout })
    }
}

// An accepted scalar record.
#[derive(Clone, Copy)]
pub struct ScalarRecord<'a> {
    pub source: &'a [u8],
    pub layout: Layout,
    ghost accepted: { ScalarAccepted source.now layout },
    ghost sizes: { Sizes source.now (head_of source.now layout) layout.body },
    ghost room: { roots_at layout + 16 * layout.trees ≤ length source.now },
}

impl<'a> ScalarRecord<'a> {
    ghost use Rattle.ends_calls.specs.Inner.Reads.{ScalarRead};

    // The record, whole and tested.
    pub fn read(source: &'a [u8]) -> Result<Self, Refusal>
        ensures { ScalarRead source.now result }
    {
        let layout = read_scalar(source)?;
        Ok(ScalarRecord { source, layout })
    }
}
