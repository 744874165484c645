// The lines of a script, and the replies to them.
use crate::mark::Marked;

/// A line of a script; numbers are samples.
#[derive(Clone, Copy, Debug, PartialEq, Eq)]
pub enum ScriptLine {
    /// Goes to a sample.
    Seek(u32),
    /// Plays so many frames.
    Play(u32),
    /// Takes a checkpoint, and gives up older ones for it where it has to.
    Mark,
    /// Drops the checkpoint at a sample.
    Drop(u32),
    /// Asks what is free.
    Free,
}

/// A reply; `at` is the position after the line.
#[derive(Clone, Copy, Debug, PartialEq, Eq)]
pub enum Reply {
    /// Went to a sample.
    At(u32),
    /// Played so many frames.
    Played { count: u32, at: u32 },
    /// Played none of so many frames, since they are too many.
    Refused(u32),
    /// What came of a mark.
    AfterMark { at: u32, marked: Marked },
    /// Dropped the checkpoint at a sample.
    Dropped(u32),
    /// There is none at that sample that may be dropped.
    NoneAt(u32),
    /// The free slots, the live checkpoints, and the samples made.
    Counted { free: u32, marks: u32, made: u64 },
}
