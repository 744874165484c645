//! Test vectors of the file forms, of cut lists, scripts and assembly text, of the hosts in memory, and of what reports and
//! complaints say. A crate with tests is proved once more for them, so the tests of these stand here, where that costs nothing.
#![tactic(auto)]

#[cfg(test)]
mod assembly;
#[cfg(test)]
mod complaints;
#[cfg(test)]
mod cuts;
#[cfg(test)]
mod demos;
#[cfg(test)]
mod encodings;
#[cfg(test)]
mod entries;
#[cfg(test)]
mod hosts;
#[cfg(test)]
mod opcodes;
#[cfg(test)]
mod reports;
#[cfg(test)]
mod scripts;
#[cfg(test)]
mod snapshots;
#[cfg(test)]
mod sounds;
