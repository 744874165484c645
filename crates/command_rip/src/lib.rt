//! The command `rip`: it writes samples of a tune as sound files of one channel, and reports on each.
#![tactic(auto)]

mod command;
mod pieces;
mod reports;

pub use command::rip;
