//! The ports between the processor, the S-DSP and the outside, the boot ROM, and the timers (Anomie's SPC700 Doc).
#![tactic(auto)]

mod io;
mod laws;
mod timer;
mod zeros;

pub use io::Io;
pub use laws::ticks_compose;
pub use timer::Timer;
pub use zeros::{cycles_of_zeros, tick_through};
