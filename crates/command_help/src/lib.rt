//! The commands `help` and `version`: what the program says of itself.
#![tactic(auto)]

mod command;

pub use command::{help, version};
