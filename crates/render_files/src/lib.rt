//! What turns the pieces of a render into the bytes of its sound file and of its trace, and its report. It is made over
//! any chip, and can make none.
#![tactic(auto)]

mod pieces;
mod rows;
mod sound_report;

pub use pieces::RenderFiles;
pub use rows::put_frames;
pub use sound_report::{put_batches, put_sound_report};
