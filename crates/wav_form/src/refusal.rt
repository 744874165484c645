// Why bytes are no file of one channel.
ghost use Rattle.std.specs.Prelude.{◌≡◌};
ghost use Rattle.wav_form.specs.declared.refusal.WavRefusal.TheVariants.{OutOfMemory as NoMemory};

use crate::OutOfMemory;
use thiserror::Error;

/// Why bytes are not read as samples.
#[derive(Clone, Copy, Debug, PartialEq, Eq, Error)]
pub enum WavRefusal {
    /// They don't begin with `RIFF`, a size and `WAVE`.
    #[error("not a WAV file")]
    NotWave,
    /// The end, or a `data` chunk, comes before any `fmt ` chunk.
    #[error("no format")]
    NoFormat,
    /// The first `fmt ` chunk doesn't show PCM with one channel of 16 bits.
    #[error("not mono 16-bit PCM")]
    Format,
    /// The end comes before any `data` chunk.
    #[error("no samples")]
    NoData,
    /// The body of the chunk whose name stands at this place runs past the end.
    #[error("the chunk at {0} is cut")]
    Cut(usize),
    /// There is no memory.
    #[error("out of memory")]
    OutOfMemory,
}

impl From<OutOfMemory> for WavRefusal {
    ghost from_gives = { λ _ refusal. refusal ≡ NoMemory };

    fn from(_: OutOfMemory) -> WavRefusal {
        WavRefusal::OutOfMemory
    }
}
