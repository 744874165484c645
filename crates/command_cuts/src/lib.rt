//! The command `cuts`: it renders the cuts of a tune that a list names, joined in one sound file, from checkpoints that
//! share pages.
#![tactic(auto)]

mod command;
mod list;

pub use command::cuts;
