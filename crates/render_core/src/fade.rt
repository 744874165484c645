// The fade.
ghost use Rattle.std.specs.Prelude.{◌≡◌, ◌<◌, ◌≤◌};
ghost use Rattle.render_core.specs.Fade.{faded_side, faded_frame};

use num_fix::Frame;

/// One side, with so many frames after it.
fn faded_side(side: i16, after: u32, fade: u32) -> i16
    requires { after < fade }
    ensures { result ≡ faded_side side after fade }
{
    let product = i64::from(side) * i64::from(after);
    (product / i64::from(fade)) as i16
}

/// Frame `at` of so many frames, of which the last `fade` go down to nothing in a straight line: each side is multiplied
/// by the number of frames after this one, divided by `fade`, and rounded towards zero.
pub fn faded(frame: Frame, at: u32, frames: u32, fade: u32) -> Frame
    requires inside { at < frames }
    requires fade { fade ≤ frames }
    ensures { result ≡ faded_frame frame at frames fade }
{
    if at < frames - fade {
        return frame;
    }
    let after = frames - 1 - at;
    Frame {
        left: faded_side(frame.left, after, fade),
        right: faded_side(frame.right, after, fade),
    }
}
