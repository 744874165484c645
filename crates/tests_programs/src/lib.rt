//! Programs over plain memory, over the machine in lock step and over the bus that defers samples. A crate with
//! tests is proved once more for them, so the tests of the processor, of the iterations of its loops and of the buses stand here, where that costs nothing.
#![tactic(auto)]

#[cfg(test)]
mod buses;
#[cfg(test)]
mod iterations;
#[cfg(test)]
mod machines;
#[cfg(test)]
mod programs;
#[cfg(test)]
mod steps;
#[cfg(test)]
mod taking;
#[cfg(test)]
mod waits;
