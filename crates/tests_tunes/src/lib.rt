//! Runs of the commands that play a tune, over hosts in memory. A crate with tests is proved once more for them, so these stand
//! here, where that costs nothing.
#![tactic(auto)]

#[cfg(test)]
mod checking;
#[cfg(test)]
mod cuts;
#[cfg(test)]
mod rendering;
#[cfg(test)]
mod renders;
#[cfg(test)]
mod sessions;
#[cfg(test)]
mod traces;
