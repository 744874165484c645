// Where a player takes marks by itself.
ghost use Rattle.std.specs.Prelude.{◌≡◌, ℕ, ◌+◌, ◌<◌, ◌≤◌, false};
ghost use Rattle.player.specs.OwnMarks.{is_own_mark};

/// The most seconds between two marks: an hour.
pub const MAX_MARK_SECONDS: u32 = 3600;

/// The most frames that are played at once. Nothing is pending at their end, so that playing fewer would cut more batches short.
pub(crate) const MAX_AT_ONCE: usize = 1024;

/// Whether a mark is taken at a sample.
pub(crate) fn is_own_mark(spacing: u32, at: u32) -> bool
    ensures { result ≡ is_own_mark spacing at }
{
    spacing != 0 && at % spacing == 0
}

/// How many frames can be played at once from a sample on: 1,024, but not past the next mark.
pub(crate) fn frames_at_once(spacing: u32, at: u32) -> usize
    ensures some { 0 < result }
    ensures few { result ≤ MAX_AT_ONCE }
    ensures quiet { (k : ℕ) → 0 < k → k < result → is_own_mark spacing (at + k) ≡ false }
{
    if spacing == 0 {
        return MAX_AT_ONCE;
    }
    ((spacing - at % spacing) as usize).min(MAX_AT_ONCE)
}
