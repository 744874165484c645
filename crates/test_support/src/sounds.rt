// Sound files with one channel, and a block.

/// What a sound file of one channel begins with, whose samples go on to its end.
pub const MONO: &[u8] =
    b"RIFF\xff\xff\xff\xffWAVEfmt \x10\0\0\0\x01\0\x01\0\0\x7d\0\0\0\xfa\0\0\x02\0\x10\0data\xff\xff\xff\xff";

/// One BRR block: its first digit is 1 at shift 12, the others are 0.
pub const BLOCK: &[u8] = b"\xc1\x10\0\0\0\0\0\0\0";

/// The sound file of that block's 16 samples: 4096, and then zeros.
pub const BLOCK_WAV: &[u8] =
    b"RIFF\x44\0\0\0WAVEfmt \x10\0\0\0\x01\0\x01\0\0\x7d\0\0\0\xfa\0\0\x02\0\x10\0data\x20\0\0\0\
    \0\x10\0\0\0\0\0\0\0\0\0\0\0\0\0\0\0\0\0\0\0\0\0\0\0\0\0\0\0\0\0\0";

/// The sound file of sixteen samples of 4096.
pub const STEADY_WAV: &[u8] =
    b"RIFF\x44\0\0\0WAVEfmt \x10\0\0\0\x01\0\x01\0\0\x7d\0\0\0\xfa\0\0\x02\0\x10\0data\x20\0\0\0\
    \0\x10\0\x10\0\x10\0\x10\0\x10\0\x10\0\x10\0\x10\0\x10\0\x10\0\x10\0\x10\0\x10\0\x10\0\x10\0\x10";
