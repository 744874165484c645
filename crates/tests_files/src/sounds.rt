// Headers, frames and samples of known files.
use num_fix::Frame;
use std::alloc::Global;
use std::test::Fail;
use wav_form::{WavRefusal, header, put_frame, read_mono};

#[test]
fn headers_are_those_of_known_files(rt: HostRuntime) -> Result<(), Fail> {
    let rows = [
        (
            1,
            16,
            *b"RIFF\x44\0\0\0WAVEfmt \x10\0\0\0\x01\0\x01\0\0\x7d\0\0\0\xfa\0\0\x02\0\x10\0data\x20\0\0\0",
        ),
        (
            2,
            0,
            *b"RIFF\x24\0\0\0WAVEfmt \x10\0\0\0\x01\0\x02\0\0\x7d\0\0\0\xf4\x01\0\x04\0\x10\0data\0\0\0\0",
        ),
    ];
    for (channels, frames, wanted) in rows {
        assert!(rt; channels == 1 || channels == 2);
        assert!(rt; frames <= 16);
        assert!(rt; header(channels, frames) == wanted, "{channels} {frames}");
    }
    Ok(())
}

#[test]
fn frames_are_left_then_right_with_low_bytes_first(rt: HostRuntime) {
    let rows = [
        (4000, 4000, [0xA0, 0x0F, 0xA0, 0x0F]),
        (1, -2, [0x01, 0x00, 0xFE, 0xFF]),
        (-32768, 32767, [0x00, 0x80, 0xFF, 0x7F]),
    ];
    for (left, right, wanted) in rows {
        assert!(rt;
            put_frame(Frame { left, right }) == wanted,
            "{left} {right}"
        );
    }
}

/// A file of three parts.
fn joined(alloc: Global, parts: [&[u8]; 3]) -> Result<Vec<u8>, Fail> {
    let mut file = Vec::new(alloc);
    for part in parts {
        file.extend_from_slice(part)?;
    }
    Ok(file)
}

/// What a file begins with, and a chunk that is passed over.
const START: &[u8] = b"RIFF\xAA\xAA\xAA\xAAWAVELIST\x03\0\0\0abc\0";

/// The format of one channel, and that of two.
const MONO: &[u8] = b"fmt \x10\0\0\0\x01\0\x01\0\x44\xAC\0\0\x88\x58\x01\0\x02\0\x10\0";

const STEREO: &[u8] = b"fmt \x10\0\0\0\x01\0\x02\0\x44\xAC\0\0\x10\xB1\x02\0\x04\0\x10\0";

/// Both, of which the first says the form.
const TWO_FORMATS: &[u8] =
    b"fmt \x10\0\0\0\x01\0\x01\0\x44\xAC\0\0\x88\x58\x01\0\x02\0\x10\0fmt \x10\0\0\0\x01\0\x02\0\x44\xAC\0\0\x10\xB1\x02\0\x04\0\x10\0";

/// One channel in a chunk of 18 bytes, the last two of which say that none come after them, and in one of 14, without its bits.
const LONG: &[u8] = b"fmt \x12\0\0\0\x01\0\x01\0\x44\xAC\0\0\x88\x58\x01\0\x02\0\x10\0\0\0";

const SHORT: &[u8] = b"fmt \x0E\0\0\0\x01\0\x01\0\x44\xAC\0\0\x88\x58\x01\0\x02\0";

/// One channel of the format 3, which isn't PCM, and one of 8 bits.
const OTHER: &[u8] = b"fmt \x10\0\0\0\x03\0\x01\0\x44\xAC\0\0\x88\x58\x01\0\x02\0\x10\0";

const EIGHT: &[u8] = b"fmt \x10\0\0\0\x01\0\x01\0\x44\xAC\0\0\x44\xAC\0\0\x01\0\x08\0";

/// A format that is cut off after its first field.
const CUT_FORMAT: &[u8] = b"fmt \x10\0\0\0\x01\0";

/// What other files of chunks begin with: those with high bytes first, and films.
const BIG_ENDIAN: &[u8] = b"RIFX\xAA\xAA\xAA\xAAWAVE";

const FILM: &[u8] = b"RIFF\xAA\xAA\xAA\xAAAVI ";

const NOTHING: &[u8] = b"";

/// Two samples, the same in a stream whose length wasn't known, and a chunk that is cut off.
const SAMPLES: &[u8] = b"data\x04\0\0\0\x01\0\xFF\xFF";

const STREAMED: &[u8] = b"data\xFF\xFF\xFF\xFF\x01\0\xFF\xFF\x07";

const CUT: &[u8] = b"LIST\x05\0\0\0abcd";

/// A chunk of an odd size that ends with the file.
const ODD: &[u8] = b"LIST\x05\0\0\0abcde";

#[test]
fn samples_of_files_with_one_channel(rt: HostRuntime) -> Result<(), Fail> {
    for (parts, wanted) in [
        ([START, MONO, SAMPLES], None),
        ([START, MONO, STREAMED], None),
        ([START, STEREO, SAMPLES], Some(WavRefusal::Format)),
        ([START, SAMPLES, MONO], Some(WavRefusal::NoFormat)),
        (
            [START, MONO, b"\0\0\0".as_slice()],
            Some(WavRefusal::NoData),
        ),
        ([START, MONO, CUT], Some(WavRefusal::Cut(48))),
        ([START, MONO, ODD], Some(WavRefusal::NoData)),
        ([START, TWO_FORMATS, SAMPLES], None),
        ([START, LONG, SAMPLES], None),
        ([START, SHORT, SAMPLES], Some(WavRefusal::Format)),
        ([START, OTHER, SAMPLES], Some(WavRefusal::Format)),
        ([START, EIGHT, SAMPLES], Some(WavRefusal::Format)),
        ([START, STREAMED, MONO], Some(WavRefusal::NoFormat)),
        ([START, CUT_FORMAT, NOTHING], Some(WavRefusal::Cut(24))),
        ([START, MONO, CUT_FORMAT], Some(WavRefusal::Cut(48))),
        ([START, NOTHING, NOTHING], Some(WavRefusal::NoFormat)),
        ([BIG_ENDIAN, MONO, SAMPLES], Some(WavRefusal::NotWave)),
        ([FILM, MONO, SAMPLES], Some(WavRefusal::NotWave)),
        (
            [b"RIFX".as_slice(), MONO, SAMPLES],
            Some(WavRefusal::NotWave),
        ),
    ] {
        let file = joined(rt.alloc(), parts)?;
        match read_mono(rt.alloc(), &file) {
            Ok(read) => assert!(rt; (read.as_slice(), wanted) == ([1, -1].as_slice(), None)),
            Err(refusal) => assert!(rt; Some(refusal) == wanted),
        }
    }
    Ok(())
}
