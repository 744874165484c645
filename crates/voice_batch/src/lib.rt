//! A voice over a batch of samples: while its envelope runs free, its samples are read off one row of kept samples.
#![tactic(auto)]

mod free_envelope;
mod laws;
mod levels;
mod plain;
mod playing;
mod render_span;
mod row;
mod short_sounding;
mod sounding;
mod span_phases;
mod span_plan;
mod workspace;

pub use laws::kept_rows;
pub use playing::{PlayedRows, play};
pub use workspace::Workspace;
