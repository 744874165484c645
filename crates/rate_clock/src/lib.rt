//! The S-DSP's clock of rates, by which envelopes and noise move, and its noise generator.
#![tactic(auto)]

mod clock;
mod noise;

pub use clock::{RateClock, samples_between_firings};
pub use noise::Noise;
