// A dealing's outputs shared among up to eight callers, in definitions and laws: opening a stock, draws from it, previews of draws, the
// passage to a fresh dealing, and what is claimed of every list of calls on one stock. The calls' code stands in crate `stock_calls`.
#![tactic(auto)]

// A dealing's label.
#[repr(C)]
#[derive(Clone, Copy, PartialEq, Eq)]
pub struct Label {
    pub bytes: [u8; 16],
}

// Under the label in use, caller k draws from next[k] up to end[k]; entries past `callers` are zero. C keeps a stock between calls: its
// struct has two arrays with their count beside them, and so has this one.
#[repr(C)]
#[derive(Clone, Copy)]
pub struct Stock {
    pub callers: u32,
    pub label: Label,
    pub next: [u32; 8],
    pub end: [u32; 8],
}

// The answer of an opening or a passage: its number, and the stock. The answers here are the C interface, so no Result: `OpenedStock`,
// `Drawn` and `Previewed` have the number beside what stands on a refusal too.
#[repr(C)]
#[derive(Clone, Copy)]
pub struct OpenedStock {
    pub number: u32,
    pub stock: Stock,
}

// The answer of a draw: its number, a window, and the stock afterwards.
#[repr(C)]
#[derive(Clone, Copy)]
pub struct Drawn {
    pub number: u32,
    pub first: usize,
    pub count: usize,
    pub stock: Stock,
}

// The answer of a preview: a draw's number and window, and the stock as it would be afterwards.
#[repr(C)]
#[derive(Clone, Copy)]
pub struct Previewed {
    pub number: u32,
    pub first: usize,
    pub count: usize,
    pub after: Stock,
}
