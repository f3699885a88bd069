// Signed amounts: an element of field 2 read as a signed 64-bit number, and written back.
#![tactic(auto)]

ghost use Rattle.std.specs.Prelude.{◌≡◌};
ghost use Rattle.amounts.specs.Calls.{read_amount, write_amount};

use answer::{ACCEPTED, Refusal};
use prime::Prime;

// What reading answers: the number, and the amount, 0 where the call is refused. It and `WrittenAmount` are what C is returned: no
// `Result`.
#[repr(C)]
#[derive(Clone, Copy)]
pub struct Amount {
    pub number: u32,
    pub amount: i64,
}

// What writing answers: the number, and the element, 0 where the call is refused.
#[repr(C)]
#[derive(Clone, Copy)]
pub struct WrittenAmount {
    pub number: u32,
    pub element: u64,
}

// The amount that an element is read as.
pub fn read_amount(element: u64) -> Amount
    ensures { result ≡ read_amount element }
{
    if element < Prime::MODULUS {
        let amount = Prime { word: element }.to_signed();
        Amount {
            number: ACCEPTED,
            amount,
        }
    } else {
        Amount {
            number: Refusal::NotElement.number(),
            amount: 0,
        }
    }
}

// The element that is read as an amount.
pub fn write_amount(amount: i64) -> WrittenAmount
    ensures { result ≡ write_amount amount }
{
    match Prime::from_signed(amount) {
        Some(element) => WrittenAmount {
            number: ACCEPTED,
            element: element.word,
        },
        None => WrittenAmount {
            number: Refusal::AmountOutOfRange.number(),
            element: 0,
        },
    }
}
