// The calls on a stock: opening it, draws from it, previews of draws, and the passage to a fresh dealing.
#![tactic(auto)]

ghost use Rattle.std.specs.Prelude.{◌≡◌, true, ◌≤◌, length, IfOk};
ghost use Rattle.answer.specs.Refused.{number_of, fault};
ghost use Rattle.answer.specs.Tests.{first_fault};
ghost use Rattle.stock.specs.Calls.{stock_opening, open_stock, draw as draw_stock, preview as preview_stock, pass as pass_stock};
ghost use Rattle.stock.specs.Calls.{open_tests, draw_tests, pass_tests, opening_share, no_callers, with_stock, refused_draw, accepted_draw};
ghost use Rattle.stock.specs.Stock.{is_caller, remaining, entries};

mod labels;
mod shares;

use answer::{ACCEPTED, Refusal};
use labels::{is_above, is_same};
use shares::{blocks_of, holding, is_caller, is_count, padded, rest, total};
use stock::{Drawn, Label, OpenedStock, Previewed, Stock};

// The most callers of a stock.
const MOST_CALLERS: usize = 8;

// The most outputs of a dealing.
const MOST_OUTPUTS: usize = 32768;

// The shares of an opening, padded to eight, once its tests are met.
#[tactic(auto, using(answer::proofs::Faults::chain))]
fn opening_shares(outputs: usize, shares: &[u32]) -> Result<[u32; 8], Refusal>
    ensures tests { fault result ≡ first_fault (open_tests outputs shares.now) }
    ensures padded { IfOk result (λ each. each ≡ entries (length shares.now) (opening_share shares.now)) }
{
    if !is_count(MOST_CALLERS, shares.len()) {
        return Err(Refusal::BadSize);
    }
    if !is_count(MOST_OUTPUTS, outputs) {
        return Err(Refusal::BadSize);
    }
    let each = padded(shares);
    if outputs < total(each) {
        return Err(Refusal::SharesAbove);
    }
    Ok(each)
}

// Opens a stock under a label with a share for each caller, as consecutive blocks of the outputs.
pub fn open(label: Label, outputs: usize, shares: &[u32]) -> OpenedStock
    ensures { stock_opening result shares.now ≡ open_stock label outputs shares.now }
{
    match opening_shares(outputs, shares) {
        Ok(each) => OpenedStock {
            number: ACCEPTED,
            stock: blocks_of(label, shares.len() as u32, each),
        },
        Err(refusal) => refused_opening(refusal),
    }
}

// A refused opening: a stock without callers, under label 0.
fn refused_opening(refusal: Refusal) -> OpenedStock
    ensures { result ≡ with_stock no_callers (number_of refusal) }
{
    OpenedStock {
        number: refusal.number(),
        stock: Stock {
            callers: 0,
            label: Label { bytes: [0; 16] },
            next: [0; 8],
            end: [0; 8],
        },
    }
}

// Tests a draw.
#[tactic(auto, using(answer::proofs::Faults::chain))]
fn check_draw(stock: Stock, label: Label, caller: usize, count: usize) -> Result<(), Refusal>
    ensures { fault result ≡ first_fault (draw_tests stock label caller count) }
{
    if !is_same(label, stock.label) {
        return Err(Refusal::LabelNotInUse);
    }
    if !is_caller(stock, caller) {
        return Err(Refusal::NoCaller);
    }
    if count > holding(stock, caller) as usize {
        return Err(Refusal::ShareSpent);
    }
    Ok(())
}

// The caller's next `count` indices, as a window.
pub fn draw(stock: Stock, label: Label, caller: usize, count: usize) -> Drawn
    ensures { result ≡ draw_stock stock label caller count }
{
    if let Err(refusal) = check_draw(stock, label, caller, count) {
        return refused_draw(stock, refusal);
    }
    accepted_draw(stock, caller, count)
}

// An accepted draw: a window from the caller's next index on, which is raised by the count.
fn accepted_draw(stock: Stock, caller: usize, count: usize) -> Drawn
    requires { (is_caller stock caller ≡ true) × (count ≤ remaining stock caller) }
    ensures { result ≡ accepted_draw stock caller count }
{
    let first = stock.next[caller];
    let mut after = stock;
    after.next[caller] = first + count as u32;
    Drawn {
        number: ACCEPTED,
        first: first as usize,
        count,
        stock: after,
    }
}

// A refused draw: no index, and the stock as it was.
fn refused_draw(stock: Stock, refusal: Refusal) -> Drawn
    ensures { result ≡ refused_draw stock (number_of refusal) }
{
    Drawn {
        number: refusal.number(),
        first: 0,
        count: 0,
        stock,
    }
}

// What a draw would return, and the stock that it would leave. The one place that makes the second struct of the C interface of the
// first: a `From` would be of two answers of C, one call's for another's.
pub fn preview(stock: Stock, label: Label, caller: usize, count: usize) -> Previewed
    ensures { result ≡ preview_stock stock label caller count }
{
    let drawn = draw(stock, label, caller, count);
    Previewed {
        number: drawn.number,
        first: drawn.first,
        count: drawn.count,
        after: drawn.stock,
    }
}

// The unspent shares that pass to a dealing, once a passage's tests are met.
#[tactic(auto, using(answer::proofs::Faults::chain))]
fn passing_shares(stock: Stock, label: Label, outputs: usize) -> Result<[u32; 8], Refusal>
    ensures tests { fault result ≡ first_fault (pass_tests stock label outputs) }
    ensures unspent { IfOk result (λ each. each ≡ entries 8 (remaining stock)) }
{
    if !is_count(MOST_OUTPUTS, outputs) {
        return Err(Refusal::BadSize);
    }
    if !is_above(label, stock.label) {
        return Err(Refusal::LabelNotAbove);
    }
    let each = rest(stock);
    if outputs < total(each) {
        return Err(Refusal::SharesAbove);
    }
    Ok(each)
}

// Passes a stock to a dealing with another label: each caller keeps its unspent share, as a block of the fresh outputs. A refused
// passage leaves the stock as it was.
pub fn pass(stock: Stock, label: Label, outputs: usize) -> OpenedStock
    ensures { result ≡ pass_stock stock label outputs }
{
    match passing_shares(stock, label, outputs) {
        Ok(each) => OpenedStock {
            number: ACCEPTED,
            stock: blocks_of(label, stock.callers, each),
        },
        Err(refusal) => OpenedStock {
            number: refusal.number(),
            stock,
        },
    }
}
