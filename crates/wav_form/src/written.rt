// What a file that is written begins with, and its frames.
ghost use Rattle.std.specs.Prelude.{◌≡◌, ◌≤◌};
ghost use Rattle.num_fix.specs.Limits.{max_frames};
ghost use Rattle.wav_form.specs.Wave.{header_of, frame_bytes};

use byteorder::{ByteOrder, LittleEndian};
use num_fix::{Frame, SAMPLE_RATE};

/// The bytes before the frames of a file.
pub const HEADER_SIZE: usize = 44;

/// The bytes before the frames of a file: PCM of 16 bits at 32,000 frames a second (RIFF/WAVE).
#[tactic(auto, unfolding(crate::specs::Wave::header_of))]
pub fn header(channels: u16, frames: u32) -> [u8; HEADER_SIZE]
    requires some { 1 ≤ channels }
    requires mono_or_stereo { channels ≤ 2 }
    requires limit { frames ≤ max_frames }
    ensures { result ≡ header_of channels frames }
{
    let frame_size = 2 * u32::from(channels);
    let size = frames * frame_size;
    let mut bytes =
        *b"RIFF\0\0\0\0WAVEfmt \x10\0\0\0\x01\0\0\0\x00\x7d\0\0\0\0\0\0\0\0\x10\0data\0\0\0\0";
    LittleEndian::write_u32(&mut bytes[4..], 36 + size);
    LittleEndian::write_u16(&mut bytes[22..], channels);
    LittleEndian::write_u32(&mut bytes[28..], SAMPLE_RATE * frame_size);
    LittleEndian::write_u16(&mut bytes[32..], 2 * channels);
    LittleEndian::write_u32(&mut bytes[40..], size);
    bytes
}

/// The four bytes of a frame: left, then right, each with its low byte first (RIFF/WAVE).
pub fn put_frame(frame: Frame) -> [u8; 4]
    ensures { result ≡ frame_bytes frame }
{
    let mut bytes = [0; 4];
    LittleEndian::write_i16(&mut bytes, frame.left);
    LittleEndian::write_i16(&mut bytes[2..], frame.right);
    bytes
}
