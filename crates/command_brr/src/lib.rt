//! The command `brr`: it decodes blocks of BRR to a sound file of one channel.
#![tactic(auto)]

mod command;

pub use command::brr;
