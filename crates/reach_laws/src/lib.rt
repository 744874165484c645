//! Laws by which the S-DSP keeps to its reach: what its next 64 samples read and write lies on the pages of the reach taken before them.
#![tactic(auto)]

mod laws;

pub use laws::{
    bytes_outside_the_reach_change_nothing, registers_stay_but_for_results,
    samples_write_inside_the_window, voices_stay_on_their_chains,
};
