// Why a bus that lags makes its pending samples.

/// Why pending samples are made.
#[derive(Clone, Copy, Debug, PartialEq, Eq)]
pub enum Cause {
    /// A write of a register, or a read of one that samples write.
    Register,
    /// A write of memory that the pending samples may read.
    Memory,
    /// A read of memory that the pending samples may write.
    Echo,
    /// 64 samples are pending, as many as may be.
    Full,
    /// The ring is full of events, which wait for the pending samples.
    Events,
    /// The samples were asked for, by `settle`.
    End,
}
