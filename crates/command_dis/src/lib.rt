//! The command `dis`: it lists code of the SPC700.
#![tactic(auto)]

mod command;

pub use command::dis;
