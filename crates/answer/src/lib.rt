// What the calls answer: a number of document 01 or 02, and the lengths written to each output buffer, which are zero where a call is
// refused; and what the calls' tests ask of slices, lengths and windows.
#![tactic(auto)]

ghost use Rattle.std.specs.Prelude.{◌≡◌};
ghost use Rattle.answer.specs.Refused.{number_of};

mod bytes;
mod lengths;

pub use bytes::any_above;
pub use lengths::{is_past, is_short, is_times};

// The number of an accepted call, as C is returned it.
pub const ACCEPTED: u32 = 0;

// Why a call is refused, each by its number, under the names of the C header. specs/Numbers.antt says what each means.
#[derive(Clone, Copy, PartialEq, Eq)]
pub enum Refusal {
    BadField = 1,
    BadSize = 2,
    BadLength = 3,
    BadPosition = 4,
    BadNoise = 5,
    BadDelta = 6,
    WindowPastEnd = 7,
    NotElement = 8,
    WrongEnd = 9,
    RecordEnds = 10,
    BadNumber = 11,
    BytesAfter = 12,
    BufferShort = 13,
    NoCaller = 14,
    ShareSpent = 15,
    SharesAbove = 16,
    BadCircuit = 17,
    TooFewTriples = 18,
    AmountOutOfRange = 19,
    LabelNotAbove = 20,
    LabelNotInUse = 21,
}

impl Refusal {
    // The number that the call returns. By name and not by `From`: docs/PROMISES.md (13.10) names it.
    pub fn number(self) -> u32
        ensures { result ≡ number_of self }
    {
        self as u32
    }
}

// The answer of a call with two output buffers. It and the next are what C is returned: a number with lengths beside it, and no `Result`.
#[repr(C)]
#[derive(Clone, Copy)]
pub struct TwoLengths {
    pub number: u32,
    pub first_written: usize,
    pub second_written: usize,
}

impl TwoLengths {
    // The answer of a refused call. By name and not by `From`, here and in the other answers: each says that its call was refused, and has
    // zeros of its own.
    pub fn refused(refusal: Refusal) -> TwoLengths
        ensures { result ≡ record { number = number_of refusal; first_written = 0; second_written = 0 } }
    {
        TwoLengths {
            number: refusal.number(),
            first_written: 0,
            second_written: 0,
        }
    }
}

// The answer of a call with one output buffer.
#[repr(C)]
#[derive(Clone, Copy)]
pub struct OneLength {
    pub number: u32,
    pub written: usize,
}

impl OneLength {
    // The answer of a refused call.
    pub fn refused(refusal: Refusal) -> OneLength
        ensures { result ≡ record { number = number_of refusal; written = 0 } }
    {
        OneLength {
            number: refusal.number(),
            written: 0,
        }
    }
}
