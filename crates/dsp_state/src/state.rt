//! What the chip is between two samples.

use crate::registers::Registers;
use echo_unit::Echo;
use gauss_table::GaussTable;
use rate_clock::Noise;
use voice_unit::Voice;

/// What the chip keeps beside its registers.
#[derive(Clone, Copy, Debug)]
pub struct Hidden {
    /// The key-ons that are pending until a poll.
    pub kon_pending: u8,
    /// The key-ons that the last poll latched.
    pub kon_latched: u8,
    pub noise: Noise,
    pub voices: [Voice; 8],
    pub echo: Echo,
}

/// The state of the chip: its registers and what it keeps beside them, and what nothing changes: its table, and which voices
/// are muted.
#[derive(Drop)]
pub struct ChipState {
    pub registers: Registers,
    pub hidden: Hidden,
    pub table: GaussTable,
    /// The muted voices: bit v is voice v. They do all that they do elsewhere, and only the sums are without them.
    pub muted: u8,
}
