//! The command `encode`: it encodes a sound file of one channel to blocks of BRR.
#![tactic(auto)]

mod command;

pub use command::encode;
