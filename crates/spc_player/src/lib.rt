//! The player of an SPC file on the S-DSP, for programs that link it: what opens it over a table of weights, and what shows of its chip. Only
//! what opens it takes memory, and makes a chip.
#![tactic(auto)]

mod laws;
mod muting;
mod opening;
mod options;
mod refusal;
#[cfg(test)]
mod tests;
mod threads;
mod voices;

pub use laws::the_opening_and_the_file_determine_the_tune;
pub use muting::mute;
pub use opening::{open_bytes, open_player};
pub use options::PlayerOptions;
pub use refusal::PlayerRefusal;
pub use std::alloc::AllocError as OutOfMemory;
pub use threads::an_spc_player_may_go_to_another_thread;
pub use voices::{ShownVoice, registers, voice};
