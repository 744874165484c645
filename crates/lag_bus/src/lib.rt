//! The bus that lags: it lets samples wait until something needs them, and answers and emits as the machine in lock step does.
#![tactic(auto)]

mod cached_clock_bus;
mod cause;
mod clocked;
mod counting;
mod deferred_bus;
mod deferred_chip;
mod lag;
mod laws;
mod merging;
mod reach_cache;
mod saved;

pub use lag::LagBus;
pub use laws::{
    a_lagging_bus_is_the_machine_in_lock_step, a_total_has_the_samples_made,
    iterations_leave_their_cycles,
};
pub use saved::BusState;
pub use std::alloc::AllocError as OutOfMemory;
