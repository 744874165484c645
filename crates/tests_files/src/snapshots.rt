use spc_form::{
    KEPT_LENGTH, Length, SpcFile, SpcRefusal, Tag, TextPlace, inspect, opening, read_spc, write_spc,
};
use std::alloc::Global;
use std::test::Fail;

const START: [u8; 50] =
    *b"SNES-SPC700 Sound File Data v0.30\x1a\x1a\x1b\x1e\x00\x04\x01\x02\x03\x04\xef\0\0Th\\\x07";

// Bytes of some length: the start of a file, zeros, and the bytes that are given by their places.
fn image(alloc: Global, length: usize, bytes: &[(usize, u8)]) -> Result<Vec<u8>, Fail> {
    let mut image = vec![in alloc; 0u8; length]?;
    for (place, byte) in START.iter().enumerate() {
        if let Some(cell) = image.get_mut(place) {
            *cell = *byte;
        }
    }
    for (place, byte) in bytes {
        if let Some(cell) = image.get_mut(*place) {
            *cell = *byte;
        }
    }
    Ok(image)
}

fn file(alloc: Global, bytes: &[(usize, u8)]) -> Result<SpcFile, Fail> {
    let image = image(alloc, KEPT_LENGTH, bytes)?;
    Ok(read_spc(alloc, &image)?)
}

/// How a file is read: as so many bytes that are written of it again, or what it is refused for.
#[derive(Clone, Copy, PartialEq, Eq)]
enum Reading {
    File(usize),
    Length(usize),
    Signature(usize),
    NoMemory,
}

fn reread(alloc: Global, image: &[u8]) -> Result<Reading, Fail> {
    match read_spc(alloc, image) {
        Ok(file) => Ok(Reading::File(write_spc(alloc, &file)?.len())),
        Err(SpcRefusal::Length(length)) => Ok(Reading::Length(length)),
        Err(SpcRefusal::Signature(at)) => Ok(Reading::Signature(at)),
        Err(SpcRefusal::OutOfMemory) => Ok(Reading::NoMemory),
    }
}

#[test]
fn files_of_some_lengths_are_accepted(rt: HostRuntime) -> Result<(), Fail> {
    for (length, accepted) in [
        (100, false),
        (65919, false),
        (65920, true),
        (66048, true),
        (1048576, true),
        (1048577, false),
    ] {
        let image = image(rt.alloc(), length, &[])?;
        let wanted = if accepted {
            Reading::File(66048)
        } else {
            Reading::Length(length)
        };
        assert!(rt; reread(rt.alloc(), image.as_slice())? == wanted, "{length}");
    }
    Ok(())
}

/// The shortest file ends with the last register of the S-DSP; the bytes that it lacks count as 0.
#[test]
fn bytes_that_are_missing_count_as_0(rt: HostRuntime) -> Result<(), Fail> {
    let image = image(rt.alloc(), 65920, &[(65919, 9)])?;
    let file = read_spc(rt.alloc(), &image)?;
    assert!(rt; file.dsp()[127] == 9);
    assert!(rt; file.extra().iter().all(|byte| *byte == 0));
    Ok(())
}

#[test]
fn the_first_byte_of_a_signature_that_differs_is_reported(rt: HostRuntime) -> Result<(), Fail> {
    for (first, second) in [(26, 26), (3, 26)] {
        let changed = image(rt.alloc(), KEPT_LENGTH, &[(first, 0), (second, 0)])?;
        let wanted = Reading::Signature(first);
        assert!(rt;
            reread(rt.alloc(), changed.as_slice())? == wanted,
            "{first}"
        );
    }
    Ok(())
}

#[test]
fn another_version_is_accepted(rt: HostRuntime) -> Result<(), Fail> {
    let version = image(rt.alloc(), 66108, &[(31, b'1')])?;
    assert!(rt; reread(rt.alloc(), version.as_slice())? == Reading::File(66048));
    Ok(())
}

/// PC, and the other registers: A, X, Y, the status and the stack pointer.
fn registers(file: &SpcFile) -> (u16, [u8; 5]) {
    (
        file.pc(),
        [file.a(), file.x(), file.y(), file.psw(), file.sp()],
    )
}

#[test]
fn fields_and_texts(rt: HostRuntime) -> Result<(), Fail> {
    let alloc = rt.alloc();
    let file = file(
        alloc,
        &[
            (0x4E, b'G'),
            (0x6D, 0xFF),
            (0x100, 9),
            (0x10100, 8),
            (0x101C0, 7),
        ],
    )?;
    assert!(rt; registers(&file) == (0x0400, [1, 2, 3, 4, 0xEF]));
    assert!(rt; (file.tag_mark(), file.minor()) == (0x1B, 30));
    assert!(rt; (file.memory()[0], file.dsp()[0], file.extra()[0]) == (9, 8, 7));
    assert!(rt; file.text(Tag::Title) == b"Th\\\x07".as_slice());
    assert!(rt; file.text(Tag::Game) == b"G".as_slice());
    for tag in [
        Tag::Dumper,
        Tag::Comments,
        Tag::Date,
        Tag::Seconds,
        Tag::Fade,
        Tag::Artist,
    ] {
        assert!(rt; file.text(tag).len() == 0);
    }
    Ok(())
}

#[test]
fn lengths_by_the_tags(rt: HostRuntime) -> Result<(), Fail> {
    let alloc = rt.alloc();
    for (mark, seconds, fade, frames, faded, known) in [
        (0x1A, b"abc", b"00001", 5_760_000, 0, false),
        (0x1A, b"000", b"00001", 5_760_000, 0, false),
        (0x1B, b"001", b"00001", 5_760_000, 0, false),
        (0x1A, b"120", b"10000", 4_160_000, 320_000, true),
        (0x1A, b"30 ", b"\0\0\0\0\0", 960_000, 0, true),
        (0x1A, b"001", b"00001", 32_032, 32, true),
        (0x1A, b" 30", b"1 000", 5_760_000, 0, false),
        (0x1A, b"30x", b"00001", 5_760_000, 0, false),
        (0x1A, b"001", b"1 000", 32_000, 0, true),
        (0x1A, b"999", b"99999", 35_167_968, 3_199_968, true),
        (0x1A, b"180", b"\0\0\0\0\0", 5_760_000, 0, true),
    ] {
        let mut bytes = [(0x23, mark); 9];
        for (i, byte) in seconds.iter().enumerate() {
            bytes[i] = (0xA9 + i, *byte);
        }
        for (i, byte) in fade.iter().enumerate() {
            bytes[i + 3] = (0xAC + i, *byte);
        }
        let wanted = Length {
            frames,
            fade: faded,
        };
        let info = inspect(&image(alloc, KEPT_LENGTH, &bytes)?)?;
        assert!(rt; file(alloc, &bytes)?.length() == wanted);
        assert!(rt; (info.length, info.is_length_known) == (wanted, known));
    }
    Ok(())
}

/// Where texts stand in the shortest file, in the order in which tags are numbered, and what of it is refused.
#[test]
fn texts_are_found_in_the_bytes(rt: HostRuntime) -> Result<(), Fail> {
    let shortest = image(rt.alloc(), 65920, &[(0x4E, b'G'), (0xB1, b'A')])?;
    let info = inspect(&shortest)?;
    let wanted = [
        (0x2E, 4),
        (0x4E, 1),
        (0xB1, 1),
        (0x6E, 0),
        (0x7E, 0),
        (0x9E, 0),
        (0xA9, 0),
        (0xAC, 0),
    ]
    .map(|(offset, length)| TextPlace { offset, length });
    assert!(rt; !info.is_tagged && info.texts == wanted);
    for length in [65919, 27] {
        let shorter = image(rt.alloc(), length, &[])?;
        assert!(rt;
            inspect(&shorter) == Err(SpcRefusal::Length(length)),
            "{length}"
        );
    }
    Ok(())
}

// With bit 7 of F1h the last 64 bytes of the memory are the ROM, and the extra bytes stand in their place.
#[test]
fn opening_with_and_without_the_rom(rt: HostRuntime) -> Result<(), Fail> {
    let alloc = rt.alloc();
    for (control, at_ffc0, rom) in [(0x80, 0x55, 0xAA), (0x7F, 0xAA, 0x00)] {
        let bytes = [
            (0x1F1, control),
            (0x1FF, 3),
            (0x100C0, 0xAA),
            (0x101C0, 0x55),
            (0x1017F, 6),
        ];
        let state = opening(alloc, &file(alloc, &bytes)?)?;
        assert!(rt; (state.cells[1], state.cells[15], state.dsp[127]) == (control, 3, 6));
        assert!(rt;
            (
                state.memory.get(0xF1),
                state.memory.get(0xFFC0),
                state.rom[0]
            ) == (control, at_ffc0, rom)
        );
    }
    Ok(())
}
