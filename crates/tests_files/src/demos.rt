use demo_gen::demo;
use spc_form::{Tag, write_spc};
use std::test::Fail;

/// What each demo file has: places, and the bytes from there on.
const PARTS: [(usize, &[u8]); 13] = [
    (
        0x00,
        b"SNES-SPC700 Sound File Data v0.30\x1A\x1A\x1A\x1E\0\x04\0\0\0\0\xEF\0\0demo ",
    ),
    (
        0x02FC,
        b"\0\0\0\0\0\x10\0\x10\x90\x10\x90\x10\x20\x11\x20\x11",
    ),
    (0x031C, b"\xF0\x13\xF0\x13\0\0"),
    (
        0x04FF,
        b"\0\x8F\x10\xFA\x8F\x01\xF1\xCD\0\x8D\0\xE4\xFD\xF0\xFC\xF5\0\x20\xC4\xF2",
    ),
    (
        0x0513,
        b"\xF5\0\x21\xC4\xF3\xF6\0\x22\xD6\x01\x10\xFC\x3D\xD8\xF4\x2F\xE6\0",
    ),
    (
        0x10100,
        b"\x40\x40\0\x10\0\x8F\xE0\x7F\0\0\0\0\x60\x40\0\x7F",
    ),
    (0x10110, b"\x40\x40\0\x10\x01\x8F\xE0\x7F\0\0\0\0\x60\0\0\0"),
    (0x10120, b"\x40\x40\0\x10\x02\x8F\xE0\x7F\0\0\0\0\x30\0\0\0"),
    (0x10130, b"\x40\x40\0\x10\x03\x8F\xE0\x7F\0\0\0\0\x30\0\0\0"),
    (
        0x10140,
        b"\x40\x40\0\x10\x04\x8F\xE0\x7F\0\0\0\0\xFF\xFF\0\0",
    ),
    (0x10150, b"\x40\x40\0\x10\x05\x8F\xE0\x7F\0\0\0\0\0\x02\0\0"),
    (0x10160, b"\x40\x40\0\x10\x06\x8F\xE0\x7F\0\0\0\0\0\x80\0\0"),
    (0x10170, b"\x40\x40\0\x10\x07\x8F\xE0\x7F\0\0\0\0\0\x04\0\0"),
];

/// Whether bytes stand at a place.
fn stands_at(all: &[u8], place: usize, part: &[u8]) -> bool {
    match all.get(place..) {
        Some(rest) => rest.starts_with(part),
        None => false,
    }
}

/// The demo files of two numbers: what depends on no draws, and the title.
#[test]
fn the_parts_stand_at_their_places(rt: HostRuntime) -> Result<(), Fail> {
    for (number, title) in [(7, "demo 7"), (4294967295, "demo 4294967295")] {
        let file = demo(rt.alloc(), number)?;
        let bytes = write_spc(rt.alloc(), &file)?;
        assert!(rt; (bytes.len(), file.pc()) == (66048, 0x0400));
        assert!(rt; file.text(Tag::Title) == title.as_bytes());
        for (place, part) in PARTS {
            assert!(rt; stands_at(bytes.as_slice(), place, part), "at {place}");
        }
    }
    Ok(())
}

/// The first two draws of the number 7 are 61 and 233; 61 leaves 5 over 7, so that the first block's shift is 9.
/// Then the headers of the second and the sixteenth block, the last byte of the samples, the first writes and the last ones,
/// and of the bytes that go into the samples the first, three headers, a byte after one of them, and the last.
#[test]
fn the_draws_of_seven(rt: HostRuntime) -> Result<(), Fail> {
    let file = demo(rt.alloc(), 7)?;
    let cells: [(usize, &[u8]); 14] = [
        (0x1000, b"\x90\xE9"),
        (0x1009, b"\xAC"),
        (0x1087, b"\x9B"),
        (0x147F, b"\x5F\0"),
        (0x2000, b"\x4C\x53\x74\0\x4C"),
        (0x20FC, b"\x4C\x53\x44\x20"),
        (0x2100, b"\x03\x1D\x04\xB6\x4F"),
        (0x21FC, b"\x24\x03\x01\x66"),
        (0x2200, b"\xA4"),
        (0x2208, b"\x54"),
        (0x2286, b"\x8B"),
        (0x2287, b"\xA0"),
        (0x228F, b"\xA0"),
        (0x22FF, b"\x60\0"),
    ];
    for (address, part) in cells {
        assert!(rt; stands_at(file.memory(), address, part), "at {address}");
    }
    Ok(())
}
