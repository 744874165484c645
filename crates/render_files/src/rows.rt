// Frames as the bytes of a sound file, a row at a time.
ghost use Rattle.std.specs.Prelude.{◌≡◌, ◌+◌, ◌*◌, ◌≤◌, ◌++◌, length};
ghost use Rattle.std.specs.List.{flat_map};
ghost use Rattle.wav_form.specs.Wave.{frame_bytes};
ghost use Rattle.trace_form.specs.Capacities.{frame_capacity};
ghost use Rattle.report_text.specs.Capacity.{buffer_capacity};
ghost use Rattle.render_files.specs.RenderFiles.{stereo_size};

use num_fix::Frame;
use report_text::FixedBuffer;
use trace_form::FRAME_CAPACITY;
use wav_form::put_frame;

/// The bytes of a frame of two channels.
pub(crate) const STEREO_SIZE: usize = 4;

/// The most frames of a row: as many as a piece of a render has at most.
const ROW: usize = FRAME_CAPACITY;

/// Adds the bytes of a row of frames at once.
fn put_row(wave: &mut FixedBuffer, frames: &[Frame])
    requires few { length frames.now ≤ frame_capacity }
    requires room { length wave.old + stereo_size * length frames.now ≤ buffer_capacity }
    ensures { wave.new ≡ wave.old ++ flat_map frame_bytes frames.now }
{
    let mut row = [0; STEREO_SIZE * ROW];
    let mut end = 0;
    for frame in frames {
        row[end..end + STEREO_SIZE].copy_from_slice(&put_frame(*frame));
        end += STEREO_SIZE;
    }
    wave.append(&row[..end]);
}

/// Adds the bytes of frames, a row at a time.
pub fn put_frames(wave: &mut FixedBuffer, frames: &[Frame])
    requires { length wave.old + stereo_size * length frames.now ≤ buffer_capacity }
    ensures { wave.new ≡ wave.old ++ flat_map frame_bytes frames.now }
{
    let mut at = 0;
    'rows: while at < frames.len() {
        let end = frames.len().min(at + ROW);
        put_row(wave, &frames[at..end]);
        at = end;
    }
}
