//! Inputs: their bytes up to a limit, an SPC file, a table of weights, and why an input is refused.
#![tactic(auto)]

mod inputs;
mod reading;

pub use inputs::{accept_file, read_file, read_table};
pub use reading::{INPUT_LIMIT, InputBytes, WAVE_LIMIT, read_input};
