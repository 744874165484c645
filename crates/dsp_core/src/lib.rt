//! The S-DSP: eight voices, the echo and the registers. It makes its samples in batches: by rows where they are more than two and the
//! voices read nothing that the echo writes in them, and else one after another. All that stands above it sees a chip as any other.
#![tactic(auto)]

mod chip;
mod dsp;
mod sample;
mod saved;
mod voices;

pub use chip_form::ReachPages;
pub use dsp::Dsp;
pub use dsp_state::ChipState;
pub use saved::DspState;
pub use std::alloc::AllocError as OutOfMemory;
