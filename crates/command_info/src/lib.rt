//! The command `info`: it reports the fields of an SPC file.
#![tactic(auto)]

mod command;

pub use command::info;
