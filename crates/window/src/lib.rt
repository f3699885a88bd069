// A window of a record's outputs, for both ends, in definitions and laws. Its tests stand in crate `window_tests`, its rows in `window_rows`
// and `window_write`.
#![tactic(auto)]

use code::Window;

// The rows of a window: the field, by its number as everywhere (`field` says why), and the window.
#[derive(Clone, Copy)]
pub struct WindowRows {
    pub field: usize,
    pub window: Window,
}

// The accumulated vectors that an end lends a window: its rows sum the noise to u and v to v, or w to w.
#[derive(Clone, Copy)]
pub enum Accumulated<'a> {
    Noise { noise: &'a [u64], v: &'a [u64] },
    Scalar { w: &'a [u64] },
}
