//! The echo of the S-DSP: its buffer in the shared memory, its FIR filter, and the output frame.
#![tactic(auto)]

mod buffer;
mod cell;
mod echo;
mod filter;
mod flg;
mod page;
mod parts;
mod regs;
mod rows;
mod volume;
mod wrapped;

pub use aram_core::Window;
pub use echo::Echo;
pub use flg::has_echo_writes;
pub use regs::EchoRegs;
pub use rows::SumRows;
