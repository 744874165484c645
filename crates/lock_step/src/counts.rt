// How often a bus let its chip run.
/// The batches in which a bus made its samples, and how many of them had which cause. Each count stays at its type's end.
#[derive(Clone, Copy, Debug, PartialEq, Eq)]
pub struct Counts {
    /// All batches.
    pub batches: u64,
    /// Before a write of a register, or a read of one that samples write.
    pub register: u64,
    /// Before a write of memory that the pending samples may read.
    pub memory: u64,
    /// Before a read of memory that the pending samples may write.
    pub echo: u64,
    /// With as many samples pending as may be.
    pub full: u64,
    /// With as many events waiting for pending samples as may be.
    pub events: u64,
    /// When it was asked for.
    pub end: u64,
}
