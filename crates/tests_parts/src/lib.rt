//! Test vectors of arithmetic, text, memory, the processor's tables, ports and timers, and the parts of a voice. A crate with
//! tests is proved once more for them, so the tests of these stand here, where that costs nothing.
#![tactic(auto)]

#[cfg(test)]
mod arithmetic;
#[cfg(test)]
mod blocks;
#[cfg(test)]
mod chains;
#[cfg(test)]
mod decimals;
#[cfg(test)]
mod levels;
#[cfg(test)]
mod memory;
#[cfg(test)]
mod numbers;
#[cfg(test)]
mod pages;
#[cfg(test)]
mod ports;
#[cfg(test)]
mod rates;
#[cfg(test)]
mod rows;
#[cfg(test)]
mod splits;
#[cfg(test)]
mod traces;
#[cfg(test)]
mod weights;
