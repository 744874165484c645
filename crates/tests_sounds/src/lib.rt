//! Test vectors of a voice, of the echo and of the S-DSP. A crate with tests is proved once more for them, so the tests of
//! these stand here, where that costs nothing.
#![tactic(auto)]

#[cfg(test)]
mod chips;
#[cfg(test)]
mod echoes;
#[cfg(test)]
mod muted;
#[cfg(test)]
mod one_by_one;
#[cfg(test)]
mod registers;
#[cfg(test)]
mod sources;
#[cfg(test)]
mod stage;
#[cfg(test)]
mod sums;
#[cfg(test)]
mod voices;
