//! One voice of the S-DSP: it reads its blocks, interpolates between its samples and follows its envelope.
#![tactic(auto)]

mod all_voices;
mod batch;
mod directory;
mod interface;
mod level;
mod out_row;
mod voice;

pub use all_voices::BatchRows;
pub use batch::{VoiceReads, VoiceView};
pub use directory::{entry_address, loop_word, start_word};
pub use interface::{UNHEARD, VoiceIn, VoiceOut, VoiceRegs, is_keyed, is_modulated, is_silencing};
pub use level::{at_level, high_byte};
pub use out_row::OutRow;
pub use voice::Voice;
