// Sums over frames.
ghost use Rattle.std.specs.Prelude.{◌≡◌, ◌+◌, ◌<◌, ◌≤◌, length, fold};
ghost use Rattle.command_check.specs.Check.{checked_samples, next_mix, sums_with, AreWithin};

use num_fix::Frame;

/// Sums over frames: of each side, and a mix of both.
#[derive(Clone, Copy)]
pub struct Sums {
    pub(crate) left: i64,
    pub(crate) right: i64,
    pub(crate) mix: u32,
}

/// The mix with one frame more.
fn next_mix(mix: u32, frame: Frame) -> u32
    ensures { result ≡ next_mix mix frame }
{
    let left = u64::from(i32::from(frame.left).cast_unsigned());
    let right = u64::from(i32::from(frame.right).cast_unsigned());
    ((5 * u64::from(mix) + left + 3 * right) % 4294967296) as u32
}

/// The sums with one frame more, after so many.
fn sums_with(sums: Sums, frame: Frame, before: u32) -> Sums
    requires within { AreWithin before sums }
    requires few { before < checked_samples }
    ensures sums { result ≡ sums_with sums frame }
    ensures within { AreWithin (before + 1) result }
{
    Sums {
        left: sums.left + i64::from(frame.left),
        right: sums.right + i64::from(frame.right),
        mix: next_mix(sums.mix, frame),
    }
}

/// The sums with more frames, after so many.
pub(crate) fn sums_with_all(sums: Sums, frames: &[Frame], before: u32) -> Sums
    requires within { AreWithin before sums }
    requires few { before + length frames.now ≤ checked_samples }
    ensures sums { result ≡ fold sums_with sums frames.now }
    ensures within { AreWithin (before + length frames.now) result }
{
    let mut sums = sums;
    let mut place = before;
    for frame in frames {
        sums = sums_with(sums, *frame, place);
        place += 1;
    }
    sums
}
