//! The command `demo`: it makes a demo file.
#![tactic(auto)]

mod command;

pub use command::demo;
