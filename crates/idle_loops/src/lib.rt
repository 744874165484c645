//! Iterations of a loop that only wait: steps of the processor that only read, over any bus.
#![tactic(auto)]

mod laws;
mod trial;

pub use laws::iterations_only_wait;
pub use trial::{ReadOnlyBus, try_iteration};
