//! What the S-DSP is between two samples: its state, its registers by their names, what a sample reads of them and leaves
//! in them, the sums over the voices, and the reach.
#![tactic(auto)]

mod mix;
mod reach;
pub mod registers;
mod results;
mod settings;
mod state;
mod voice_settings;
mod volumes;

pub use mix::{SILENT_SUMS, Sums, sum_voices, with_share};
pub use results::{is_result, next_endx, put_all_levels, put_results};
pub use settings::{Settings, settings_of};
pub use state::{ChipState, Hidden};
pub use voice_settings::{SharedByVoices, VoiceSettings};
pub use volumes::Volumes;
