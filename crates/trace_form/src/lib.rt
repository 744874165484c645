//! What a run of the sound unit gives beside its sound: records of events, lists of a fixed capacity, and trace lines.
#![tactic(auto)]

mod lists;
mod record;
mod ring;
mod text;

pub use lists::{FRAME_CAPACITY, Frames, RECORD_CAPACITY, Records};
pub use record::Record;
pub use ring::{EVENT_CAPACITY, EventRing, Full};
pub use std::alloc::AllocError as OutOfMemory;
pub use text::{LINE_SIZE, TraceLine, line};
