// What callers get in arrays of their own: frames, and text.
ghost use Rattle.std.specs.Prelude.{◌≡◌, ◌+◌, ◌-◌, ◌≤◌, ◌++◌, length, take, drop, map};
ghost use Rattle.render_core.specs.Fade.{faded_from};
ghost use Rattle.player.specs.Output.{stereo, as_frame, with_text};

use num_fix::Frame;
use render_core::faded;
use spc_form::Length;

/// One stereo frame, as C lays it out: a signed 16-bit number for each side, left first; 32,000 frames are a second.
#[repr(C)]
#[derive(Clone, Copy, Debug, PartialEq, Eq)]
pub struct StereoFrame {
    pub left: i16,
    pub right: i16,
}

/// A frame as callers take it.
fn stereo(frame: Frame) -> StereoFrame
    ensures { result ≡ stereo frame }
{
    StereoFrame {
        left: frame.left,
        right: frame.right,
    }
}

/// Puts frames into others from a place on.
pub(crate) fn put_frames(frames: &[Frame], out: &mut [StereoFrame], from: usize)
    requires { from + length frames.now ≤ length out.old }
    ensures { out.new ≡ take from out.old ++ map stereo frames.now ++ drop (from + length frames.now) out.old }
{
    for place in 0..frames.len() {
        out[from + place] = stereo(frames[place]);
    }
}

/// The frame that a caller has.
fn as_frame(frame: StereoFrame) -> Frame
    ensures { result ≡ as_frame frame }
{
    let StereoFrame { left, right } = frame;
    Frame { left, right }
}

/// Fades frames, the first of which is frame `at` of a whole length.
pub(crate) fn fade_frames(out: &mut [StereoFrame], at: u32, whole: Length)
    requires inside { length out.old ≤ whole.frames - at }
    requires fade_within { whole.fade ≤ whole.frames }
    ensures { out.new ≡ map stereo (faded_from at whole.frames whole.fade (map as_frame out.old)) }
{
    for place in 0..out.len() {
        let frame = as_frame(out[place]);
        out[place] = stereo(faded(frame, at + place as u32, whole.frames, whole.fade));
    }
}

/// Writes so many bytes of a text.
fn put_bytes(text: &[u8], out: &mut [u8], count: usize)
    requires text { count ≤ length text.now }
    requires room { count ≤ length out.old }
    ensures { out.new ≡ take count text.now ++ drop count out.old }
{
    out[..count].copy_from_slice(&text[..count]);
}

/// Writes as much of a text as an array has room for, and a zero byte; nothing into an array of no bytes.
pub fn put_text(text: &[u8], out: &mut [u8])
    ensures text { out.new ≡ with_text text.now out.old }
{
    if let Some(most) = out.len().checked_sub(1) {
        let count = text.len().min(most);
        put_bytes(text, out, count);
        out[count] = 0;
    }
}
