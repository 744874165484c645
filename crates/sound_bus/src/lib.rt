//! The plain bus, which makes each sample in the moment in which it falls due. Here stand also the bus that lags, and what every bus and chip has.
#![tactic(auto)]

mod plain;

pub use chip_form::Chip;
pub use lag_bus::{BusState, LagBus, OutOfMemory};
pub use lock_step::{Counts, DrainedBus};
pub use plain::PlainBus;
