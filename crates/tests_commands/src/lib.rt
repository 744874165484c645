//! Runs of the commands that play no tune, over hosts in memory. A crate with tests is proved once more for them, so these stand
//! here, where that costs nothing.
#![tactic(auto)]

#[cfg(test)]
mod assembling;
#[cfg(test)]
mod decoding;
#[cfg(test)]
mod demos;
#[cfg(test)]
mod encoding;
#[cfg(test)]
mod fields;
#[cfg(test)]
mod helping;
#[cfg(test)]
mod listing;
#[cfg(test)]
mod ripping;
