// The calls on signed amounts under their exported names.
ghost use Rattle.std.specs.Prelude.{◌≡◌};
ghost use Rattle.page_two.specs.Document02 as document02;

use amounts::{Amount, WrittenAmount};

// The amount that an element of field 2 is read as.
#[unsafe(no_mangle)]
pub extern "C" fn expander_read_amount(element: u64) -> Amount
    ensures { document02.amount result.number result.amount ≡ document02.read_amount element }
{
    amounts::read_amount(element)
}

// The element of field 2 that is read as an amount.
#[unsafe(no_mangle)]
pub extern "C" fn expander_write_amount(amount: i64) -> WrittenAmount
    ensures { result ≡ document02.write_amount amount }
{
    amounts::write_amount(amount)
}
