// The calls on a stock under their exported names.
ghost use Rattle.std.specs.Prelude.{◌≡◌};
ghost use Rattle.page_two.specs.Document02 as document02;

use stock::{Drawn, Label, OpenedStock, Previewed, Stock};

// Opens a stock under a label with a share for each caller, as consecutive blocks of the outputs.
#[unsafe(no_mangle)]
pub extern "C" fn expander_open_stock(label: Label, outputs: usize, shares: &[u32]) -> OpenedStock
    ensures { document02.opened result.number
        (document02.stock result.stock.callers result.stock.label.bytes result.stock.next result.stock.end) shares.now
        ≡ document02.open_stock label.bytes outputs shares.now }
{
    stock_calls::open(label, outputs, shares)
}

// The caller's next `count` indices, as a window.
#[unsafe(no_mangle)]
pub extern "C" fn expander_draw(stock: Stock, label: Label, caller: usize, count: usize) -> Drawn
    ensures { document02.gives result.number result.first result.count
        (document02.stock result.stock.callers result.stock.label.bytes result.stock.next result.stock.end)
        ≡ document02.draw (document02.stock stock.callers stock.label.bytes stock.next stock.end)
        label.bytes caller count }
{
    stock_calls::draw(stock, label, caller, count)
}

// What a draw would return, and the stock that it would leave.
#[unsafe(no_mangle)]
pub extern "C" fn expander_preview(
    stock: Stock,
    label: Label,
    caller: usize,
    count: usize,
) -> Previewed
    ensures { document02.gives result.number result.first result.count
        (document02.stock result.after.callers result.after.label.bytes result.after.next result.after.end)
        ≡ document02.preview (document02.stock stock.callers stock.label.bytes stock.next stock.end)
        label.bytes caller count }
{
    stock_calls::preview(stock, label, caller, count)
}

// Passes a stock to a dealing with another label: each caller keeps its unspent share, as a block of the fresh outputs.
#[unsafe(no_mangle)]
pub extern "C" fn expander_pass_stock(stock: Stock, label: Label, outputs: usize) -> OpenedStock
    ensures { document02.gives result.number 0 0
        (document02.stock result.stock.callers result.stock.label.bytes result.stock.next result.stock.end)
        ≡ document02.pass_stock (document02.stock stock.callers stock.label.bytes stock.next stock.end)
        label.bytes outputs }
{
    stock_calls::pass(stock, label, outputs)
}
