// Sound files of frames.
use command_runner::OutOfMemory;
use std::alloc::Global;

/// The bytes of a sound file before its first frame.
pub const HEADER_SIZE: usize = 44;

/// Frames that are the same on both sides: how many there are of each, one after another.
pub type Frames = &'static [(u32, i16)];

/// The bytes of these frames.
fn frame_bytes(alloc: Global, frames: &[(u32, i16)]) -> Result<Vec<u8>, OutOfMemory> {
    let mut bytes = Vec::new(alloc);
    for (count, side) in frames {
        for _ in 0..*count {
            bytes.extend_from_slice(&side.to_le_bytes())?;
            bytes.extend_from_slice(&side.to_le_bytes())?;
        }
    }
    Ok(bytes)
}

/// The sound file of these frames.
pub fn wave_of(alloc: Global, frames: &[(u32, i16)]) -> Result<Vec<u8>, OutOfMemory> {
    let sides = frame_bytes(alloc, frames)?;
    let mut size = 0u32;
    for (count, _) in frames {
        size = size.wrapping_add(count.wrapping_mul(4));
    }
    let mut wave = Vec::from_slice(alloc, b"RIFF")?;
    wave.extend_from_slice(&size.wrapping_add(36).to_le_bytes())?;
    wave.extend_from_slice(
        b"WAVEfmt \x10\0\0\0\x01\0\x02\0\0\x7d\0\0\0\xf4\x01\0\x04\0\x10\0data",
    )?;
    wave.extend_from_slice(&size.to_le_bytes())?;
    wave.extend_from_slice(sides.as_slice())?;
    Ok(wave)
}
