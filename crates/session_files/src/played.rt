// The frames that a server plays, and the bytes of them.
ghost use Rattle.std.specs.Prelude.{◌≡◌, ◌+◌, ◌*◌, ◌≤◌, ◌++◌, [], length, IfOk};
ghost use Rattle.std.specs.List.{flat_map};
ghost use Rattle.wav_form.specs.Wave.{frame_bytes};
ghost use Rattle.render_files.specs.RenderFiles.{stereo_size};
ghost use Rattle.report_text.specs.Capacity.{buffer_capacity};

use crate::OutOfMemory;
use render_files::put_frames;
use report_text::FixedBuffer;
use std::alloc::Global;
use trace_form::Frames;

/// Lists of a fixed capacity: for the frames of a piece, and for their bytes.
#[derive(Drop)]
pub(crate) struct PieceBuffers {
    pub(crate) frames: Frames,
    pub(crate) wave: FixedBuffer,
}

impl PieceBuffers {
    /// Empty lists.
    pub(crate) fn new(alloc: Global) -> Result<PieceBuffers, OutOfMemory>
        ensures { IfOk result (λ buffers. buffers.wave ≡ []) }
    {
        Ok(PieceBuffers {
            frames: Frames::new(alloc)?,
            wave: FixedBuffer::new(alloc)?,
        })
    }
}

/// Adds the bytes of the frames that were played.
pub(crate) fn put_played(wave: &mut FixedBuffer, frames: &Frames)
    requires { length wave.old + stereo_size * length frames.now ≤ buffer_capacity }
    ensures { wave.new ≡ wave.old ++ flat_map frame_bytes frames.now }
{
    put_frames(wave, frames.as_slice());
}
