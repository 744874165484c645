//! Worked examples of muted voices.

use crate::sources::put_all;
use crate::stage::{SILENT_FRAME, Stage, begin_in_silence, have_same_bytes, have_same_registers};
use aram_core::Aram;
use num_fix::Frame;
use std::alloc::Global;
use std::test::Fail;

/// VOLL and VOLR of the eight voices.
const VOLUMES: [(u8, u8); 8] = [
    (0x10, 0x10),
    (0xec, 0x0c),
    (0x09, 0xf9),
    (0x1f, 0x05),
    (0xfd, 0xd8),
    (0x18, 0xe8),
    (0x00, 0x21),
    (0x12, 0x02),
];

/// A memory with one source, of a block that repeats itself.
fn memory_of_a_wave(alloc: Global) -> Result<Aram, Fail> {
    let zeros = vec![in alloc; 0u8; 0x10000]?;
    let mut memory = Aram::from_image(alloc, &zeros)?;
    put_all(&mut memory, 0x0200, &[0x00, 0x05, 0x00, 0x05]);
    put_all(
        &mut memory,
        0x0500,
        &[0xb3, 0x12, 0x34, 0x56, 0x70, 0x9a, 0xbc, 0xde, 0xf1],
    );
    Ok(memory)
}

/// Eight voices that wait for a key on, each at a pitch, a level and volumes of its own. The main volumes are -128, at which no bit
/// of a sum is lost, and the echo is at volume 0.
fn choir() -> [u8; 128] {
    let mut registers = [0; 128];
    for v in 0..8u8 {
        let place = 16 * usize::from(v);
        let (left, right) = VOLUMES[usize::from(v)];
        registers[place] = left;
        registers[place + 1] = right;
        registers[place + 2] = 0x11 * v;
        registers[place + 3] = 0x08 + 3 * v;
        registers[place + 7] = 0x20 + 0x0b * v;
    }
    registers[0x0c] = 0x80;
    registers[0x1c] = 0x80;
    registers[0x4c] = 0xff;
    registers[0x5d] = 0x02;
    registers[0x6c] = 0x20;
    registers[0x6d] = 0xe0;
    registers
}

/// The first 64 frames of the choir with these voices muted.
fn sung(alloc: Global, muted: u8) -> Result<Stage, Fail> {
    let mut stage = Stage::with_muted(alloc, &choir(), memory_of_a_wave(alloc)?, muted)?;
    stage.play(64, 0);
    Ok(stage)
}

/// The samples that are looked at.
const SAMPLES: [usize; 7] = [5, 6, 7, 20, 33, 48, 63];

/// Whether the frames of these samples are so.
fn are_at(frames: &[Frame], wanted: &[(i16, i16); 7]) -> bool {
    for j in 0..7 {
        let (left, right) = wanted[j];
        if frames.get(SAMPLES[j]) != Some(&Frame { left, right }) {
            return false;
        }
    }
    true
}

// The values are sums of outputs at volumes, made of traces of eight files with one voice each.

/// The frames of all voices.
const ALL: [(i16, i16); 7] = [
    (0, 0),
    (-1492, 178),
    (-2569, 246),
    (-711, 6607),
    (2055, -200),
    (-378, -42),
    (-1024, -389),
];

/// Those of voice 5.
const FIFTH: [(i16, i16); 7] = [
    (0, 0),
    (-522, 523),
    (-902, 903),
    (-1674, 1675),
    (1730, -1729),
    (132, -131),
    (-1335, 1336),
];

/// Those of voices 4 to 7.
const UPPER: [(i16, i16); 7] = [
    (0, 0),
    (-954, 421),
    (-1750, 566),
    (-532, 5999),
    (938, 352),
    (369, 19),
    (-265, -1135),
];

#[test]
fn what_is_heard_of_eight_voices(rt: HostRuntime) -> Result<(), Fail> {
    for (muted, wanted) in [
        (0x00, ALL),
        (0xdf, FIFTH),
        (0x0f, UPPER),
        (0xff, [(0, 0); 7]),
    ] {
        let stage = sung(rt.alloc(), muted)?;
        assert!(rt; are_at(stage.frames.as_slice(), &wanted), "{muted}");
    }
    Ok(())
}

/// Adds frames to others, sample by sample.
fn add_all(sums: &mut [Frame; 64], frames: &[Frame]) {
    for j in 0..64 {
        if let Some(frame) = frames.get(j) {
            sums[j] = Frame {
                left: sums[j].left.wrapping_add(frame.left),
                right: sums[j].right.wrapping_add(frame.right),
            };
        }
    }
}

#[test]
fn single_voices_add_up_to_all_of_them(rt: HostRuntime) -> Result<(), Fail> {
    let mut sums = [SILENT_FRAME; 64];
    for v in 0..8u8 {
        let stage = sung(rt.alloc(), 0xff - (1 << v))?;
        add_all(&mut sums, stage.frames.as_slice());
    }
    let whole = sung(rt.alloc(), 0)?;
    assert!(rt; whole.frames.as_slice() == sums.as_slice());
    Ok(())
}

/// Voices 0 and 1, of which the first modulates the second, both in an echo with feedback.
fn modulated_pair(alloc: Global, muted: u8) -> Result<Stage, Fail> {
    let mut registers = choir();
    for (address, value) in [
        (0x4cusize, 0x03u8),
        (0x2d, 0x02),
        (0x4d, 0x03),
        (0x2c, 0x30),
        (0x3c, 0x50),
        (0x0d, 0x60),
        (0x7f, 0x70),
        (0x6c, 0x00),
    ] {
        registers[address] = value;
    }
    Stage::with_muted(alloc, &registers, memory_of_a_wave(alloc)?, muted)
}

// Voice 0 is muted and modulates voice 1 all the same; with both muted all is silent, and nothing is written to the echo.
#[test]
fn muted_voices_do_all_else(rt: HostRuntime) -> Result<(), Fail> {
    let mut all = modulated_pair(rt.alloc(), 0x00)?;
    all.play(64, 0x03);
    for (muted, silent) in [(0x01, 0), (0x03, 64)] {
        let mut some = modulated_pair(rt.alloc(), muted)?;
        some.play(64, 0x03);
        assert!(rt; some.records.as_slice() == all.records.as_slice());
        assert!(rt; have_same_registers(&some.dsp, &all.dsp));
        assert!(rt; some.frames.as_slice() != all.frames.as_slice());
        assert!(rt; begin_in_silence(some.frames.as_slice(), silent));
        assert!(rt;
            have_same_bytes(&some.memory, &memory_of_a_wave(rt.alloc())?) == (silent == 64)
        );
    }
    Ok(())
}

// A load also puts back the voices that were muted when it was saved; with_muted takes others in their place.
#[test]
fn a_load_brings_the_muted_voices_of_the_save(rt: HostRuntime) -> Result<(), Fail> {
    let mut heard = modulated_pair(rt.alloc(), 0x00)?;
    let mut loaded = modulated_pair(rt.alloc(), 0xff)?;
    let mut muted = modulated_pair(rt.alloc(), 0x00)?;
    heard.play(1, 0);
    let saved = heard.dsp.save();
    loaded.dsp.load(&saved);
    muted.dsp.load(&saved.with_muted(0xff));
    heard.play(63, 0);
    loaded.play(63, 0);
    muted.play(63, 0);
    assert!(rt; !begin_in_silence(loaded.frames.as_slice(), 63));
    assert!(rt; begin_in_silence(muted.frames.as_slice(), 63));
    assert!(rt; have_same_registers(&heard.dsp, &loaded.dsp));
    assert!(rt; have_same_registers(&heard.dsp, &muted.dsp));
    Ok(())
}
