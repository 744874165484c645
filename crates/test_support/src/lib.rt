//! What tests of several crates share: a host in memory, what a command left on it, SPC files and tables to try commands and
//! renders on, sound files that they should make, sets of pages, and records of writes of a port.
#![tactic(auto)]

mod files;
mod machine;
mod outcome;
mod sounds;
mod waves;

pub use files::{
    DSP, ENDS_THE_BLOCK, FILE_LENGTH, FIVE, MEMORY, Pieces, TAGS, file_of, straight_table,
};
pub use machine::{has_exactly, writes_of};
pub use outcome::{OUTPUT_ROOM, Outcome, host_with};
pub use sounds::{BLOCK, BLOCK_WAV, MONO, STEADY_WAV};
pub use waves::{Frames, HEADER_SIZE, wave_of};
