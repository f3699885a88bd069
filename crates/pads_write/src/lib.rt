// The pads of a window, at each end.
#![tactic(auto)]

mod write;

pub use write::{write_both_pads, write_pads};
