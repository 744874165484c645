//! The machine beneath the processor in lock step with its sound chip: what each call of a bus over any chip answers and
//! leaves, and what it emits and hands over.
#![tactic(auto)]

mod counts;
mod drained_bus;
mod numbering;
mod writes;

pub use counts::Counts;
pub use drained_bus::DrainedBus;
pub use numbering::sample_number;
pub use writes::{writes_port, writes_register};
