// A cut of a tune.

/// The most frames of a sound, and the last sample that a cut may end at: an hour.
pub const MAX_FRAMES: u32 = 115_200_000;

/// The slots of the pool of a list of cuts.
pub const SLOTS_FOR_CUTS: u32 = 4096;

/// The most live checkpoints.
pub const MAX_CHECKPOINTS: u32 = 64;

/// The most frames that a server plays into a list at once.
pub const MAX_PLAYED: u32 = 64;

/// The bytes of these frames in a sound file, four each.
pub const PLAYED_BYTES: usize = 4 * MAX_PLAYED as usize;

/// So many frames of a tune from a sample on, before any fade.
#[derive(Clone, Copy, Debug, PartialEq, Eq)]
pub struct Cut {
    pub start: u32,
    pub count: u32,
}
