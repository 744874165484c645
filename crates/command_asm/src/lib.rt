//! The command `asm`: it assembles a source to code of the SPC700.
#![tactic(auto)]

mod command;

pub use command::asm;
