// Shares of eight callers, and their blocks. A caller is a number, which need not be one of the stock's: `is_caller` and `remaining` say
// what holds of any.
ghost use Rattle.std.specs.Prelude.{◌≡◌, ◌≤◌, length};
ghost use Rattle.stock.specs.Stock.{is_caller, remaining, sum_of, entries, share_blocks};
ghost use Rattle.stock.specs.Calls.{is_count, opening_share};

use stock::{Label, Stock};

// Whether a number is 1 to a largest one. The test of a dealing's sizes is as short (`is_size` of `dealing_tests`); each says the
// definition of its own call.
pub fn is_count(most: usize, n: usize) -> bool
    ensures { result ≡ is_count most n }
{
    1 <= n && n <= most
}

// The shares of a slice, with zeros past them. `fresh_wires` of `circuit_step` is as short: each says its own call's definition.
pub fn padded(shares: &[u32]) -> [u32; 8]
    requires { length shares.now ≤ 8 }
    ensures { result ≡ entries (length shares.now) (opening_share shares.now) }
{
    let mut each = [0u32; 8];
    each[..shares.len()].copy_from_slice(shares);
    each
}

// The sum of eight shares.
pub fn total(shares: [u32; 8]) -> usize
    ensures { result ≡ sum_of 8 (opening_share shares) }
{
    let mut sum: usize = 0;
    for share in &shares {
        sum += *share as usize;
    }
    sum
}

// Consecutive blocks of the outputs, from index 0 in caller order. `at` is the sum of the shares so far, and goes into two arrays: `scan`
// would take a closure for it, and two loops.
pub fn blocks_of(label: Label, callers: u32, shares: [u32; 8]) -> Stock
    requires { sum_of 8 (opening_share shares) ≤ 32768 }
    ensures { result ≡ share_blocks label callers (opening_share shares) }
{
    let n = callers.min(8) as usize;
    let mut next = [0u32; 8];
    let mut end = [0u32; 8];
    let mut at: u32 = 0;
    for k in 0..n {
        next[k] = at;
        at += shares[k];
        end[k] = at;
    }
    Stock {
        callers,
        label,
        next,
        end,
    }
}

// Whether a stock has a caller.
pub fn is_caller(stock: Stock, caller: usize) -> bool
    ensures { result ≡ is_caller stock caller }
{
    caller < 8 && caller < stock.callers as usize
}

// A caller's remaining share.
pub fn holding(stock: Stock, caller: usize) -> u32
    ensures { result ≡ remaining stock caller }
{
    if !is_caller(stock, caller) {
        return 0;
    }
    stock.end[caller].saturating_sub(stock.next[caller])
}

// What each of the eight callers has not drawn. By a loop: by `array::from_fn` the check does not find the proof.
pub fn rest(stock: Stock) -> [u32; 8]
    ensures { result ≡ entries 8 (remaining stock) }
{
    let mut each = [0u32; 8];
    for caller in 0..8 {
        each[caller] = holding(stock, caller);
    }
    each
}
