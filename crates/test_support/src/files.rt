// SPC files and tables of weights.
use command_runner::OutOfMemory;
use std::alloc::Global;

/// The place of the memory in a file.
pub const MEMORY: usize = 0x100;

/// The place of the registers of the S-DSP in a file.
pub const DSP: usize = 0x10100;

/// The bytes of a whole file without extended tags.
pub const FILE_LENGTH: usize = 66048;

/// Bytes at places.
pub type Pieces = &'static [(usize, &'static [u8])];

/// No tags, minor version 30, PC 0400h, SP EFh; a branch to itself at 0400h; the sound muted and its echo not written.
const BASE: Pieces = &[
    (
        0,
        b"SNES-SPC700 Sound File Data v0.30\x1a\x1a\x1b\x1e\x00\x04\0\0\0\0\xef",
    ),
    (MEMORY + 0x0400, b"\x2f\xfe"),
    (DSP + 0x6c, b"\x60"),
    (DSP + 0x6d, b"\xe0"),
];

/// Voice 0 plays a block that repeats itself.
pub const FIVE: Pieces = &[
    (MEMORY + 0x0200, b"\x00\x05\x00\x06"),
    (MEMORY + 0x0500, b"\xc3\x11\x11\x11\x11\x11\x11\x11\x11"),
    (MEMORY + 0x0600, b"\xc3\x11\x11\x11\x11\x11\x11\x11\x11"),
    (DSP, b"\x7f\x7f"),
    (DSP + 0x03, b"\x10"),
    (DSP + 0x07, b"\x7f"),
    (DSP + 0x0c, b"\x7f"),
    (DSP + 0x1c, b"\x7f"),
    (DSP + 0x4c, b"\x01"),
    (DSP + 0x5d, b"\x02"),
    (DSP + 0x6c, b"\x20"),
];

/// A program that waits for 63 samples, and then ends the block that voice 0 repeats.
pub const ENDS_THE_BLOCK: Pieces = &[(
    MEMORY + 0x0400,
    b"\xcd\xcb\x1d\x00\x00\xd0\xfb\xe8\xc1\xc5\x00\x06\x2f\xfe",
)];

/// Tags: a second, and a fade of a millisecond.
pub const TAGS: Pieces = &[(0x23, b"\x1a"), (0xa9, b"001"), (0xac, b"00001")];

/// Puts pieces of bytes at their places, as far as there are such places.
fn put_all(image: &mut [u8], pieces: &[(usize, &[u8])]) {
    for (place, bytes) in pieces {
        let mut at = *place;
        for byte in *bytes {
            if let Some(cell) = image.get_mut(at) {
                *cell = *byte;
            }
            at = at.wrapping_add(1);
        }
    }
}

/// A file of so many bytes: the base file, these pieces over it, and more pieces over those.
pub fn file_of(
    alloc: Global,
    length: usize,
    pieces: &[(usize, &[u8])],
    more: &[(usize, &[u8])],
) -> Result<Vec<u8>, OutOfMemory> {
    let mut image = vec![in alloc; 0u8; length]?;
    put_all(&mut image, BASE);
    put_all(&mut image, pieces);
    put_all(&mut image, more);
    Ok(image)
}

/// The table of straight lines: 256 zeros, and then 4, 12, 20 and so on.
pub fn straight_table(alloc: Global) -> Result<Vec<u8>, OutOfMemory> {
    let mut table = vec![in alloc; 0u8; 512]?;
    for i in 0..256u16 {
        table.extend_from_slice(&(8 * i + 4).to_le_bytes())?;
    }
    Ok(table)
}
