//! Worked examples of registers that say when a voice comes to the end of its block, as ENDX shows it.
//!
//! A voice that is keyed in sample 0 is heard from sample 6 on. By then it has read three of the four groups of its block. It reads the last one, and so
//! ends the block, in the first sample to which it has gone 4000h: at the pitch 1000h that is sample 10.

use crate::sources::put_all;
use crate::stage::{Stage, keyed_voice, one_voice, write_all};
use std::alloc::Global;
use std::process::Abort;
use std::test::Fail;

/// The first sample, of 20, after which ENDX isn't 0, and what it then is. These registers are written before sample 0.
fn first_end(alloc: Global, writes: &[(u8, u8)]) -> Result<Option<(u32, u8)>, Fail> {
    let mut stage = one_voice(alloc)?;
    write_all(&mut stage.dsp, writes);
    for sample in 0..20u32 {
        stage.play(1, 0);
        let ended = stage.dsp.reg_read(0x7c);
        if ended != 0 {
            return Ok(Some((sample, ended)));
        }
    }
    Ok(None)
}

/// Writes registers, makes n samples as one batch, and looks at ENDX.
fn look_at_endx(rt: &impl Abort, stage: &mut Stage, writes: &[(u8, u8)], n: u8, endx: u8) {
    write_all(&mut stage.dsp, writes);
    if n <= 64 {
        stage.play(n, 0);
    }
    let sample = stage.dsp.sample();
    assert!(rt; stage.dsp.reg_read(0x7c) == endx, "before sample {sample}");
}

// The block ends in sample 10. The KON that is then written is latched in sample 12, and the block ends again in sample 22. Any byte clears ENDX.
#[test]
fn endx_has_a_voice_until_its_next_key_on(rt: HostRuntime) -> Result<(), Fail> {
    let mut stage = keyed_voice(rt.alloc(), 0x01)?;
    look_at_endx(&rt, &mut stage, &[], 10, 0x00);
    look_at_endx(&rt, &mut stage, &[], 1, 0x01);
    look_at_endx(&rt, &mut stage, &[(0x4c, 0x01)], 1, 0x01);
    look_at_endx(&rt, &mut stage, &[], 1, 0x00);
    look_at_endx(&rt, &mut stage, &[], 9, 0x00);
    look_at_endx(&rt, &mut stage, &[], 1, 0x01);
    look_at_endx(&rt, &mut stage, &[(0x7c, 0xff)], 0, 0x00);
    Ok(())
}

// The KON is latched in sample 10, in which the block ends, and the block ends again in sample 20.
#[test]
fn endx_loses_a_voice_that_is_keyed_as_its_block_ends(rt: HostRuntime) -> Result<(), Fail> {
    let mut stage = keyed_voice(rt.alloc(), 0x01)?;
    look_at_endx(&rt, &mut stage, &[], 10, 0x00);
    look_at_endx(&rt, &mut stage, &[(0x4c, 0x01)], 1, 0x00);
    look_at_endx(&rt, &mut stage, &[], 9, 0x00);
    look_at_endx(&rt, &mut stage, &[], 1, 0x01);
    Ok(())
}

// The block at 0500h has no end bit: the voice goes from its last group, in sample 10, to the block that follows, and ends that one 16 samples later.
#[test]
fn endx_shows_only_blocks_with_an_end_bit(rt: HostRuntime) -> Result<(), Fail> {
    let mut stage = keyed_voice(rt.alloc(), 0x01)?;
    let block = [0xc3, 0x11, 0x11, 0x11, 0x11, 0x11, 0x11, 0x11, 0x11];
    put_all(&mut stage.memory, 0x0500, &[0xc0]);
    put_all(&mut stage.memory, 0x0509, &block);
    look_at_endx(&rt, &mut stage, &[], 26, 0x00);
    look_at_endx(&rt, &mut stage, &[], 1, 0x01);
    Ok(())
}

#[test]
fn endx_has_a_bit_for_each_voice(rt: HostRuntime) -> Result<(), Fail> {
    for v in 0..8u8 {
        let end = first_end(rt.alloc(), &[(16 * v + 3, 0x10), (0x4c, 1 << v)])?;
        assert!(rt; end == Some((10, 1 << v)), "voice {v}");
    }
    Ok(())
}

/// PITCHL and PITCHH, and the sample in which the block ends. Bits 6 and 7 of PITCHH are ignored.
const PITCHES: [(u8, u8, u32); 7] = [
    (0xff, 0x0f, 11),
    (0x00, 0x10, 10),
    (0x00, 0x50, 10),
    (0x00, 0x20, 8),
    (0x00, 0x60, 8),
    (0x00, 0xa0, 8),
    (0x00, 0xe0, 8),
];

#[test]
fn a_pitch_has_14_bits(rt: HostRuntime) -> Result<(), Fail> {
    for (low, high, sample) in PITCHES {
        let writes = [(0x02, low), (0x03, high), (0x4c, 0x01)];
        let end = first_end(rt.alloc(), &writes)?;
        assert!(rt; end == Some((sample, 0x01)), "at {high:02x}{low:02x}");
    }
    Ok(())
}

// Voice 1 has the pitch 0FFFh, at which it doesn't come to 4000h before sample 11. The output of voice 0, which plays at 0800h and ends its block later, is
// 4064 from sample 6 on. That changes the pitch to 11FAh, at which voice 1 comes there in sample 10.
#[test]
fn bit_1_of_pmon_modulates_voice_1(rt: HostRuntime) -> Result<(), Fail> {
    for (pmon, sample) in [(0x00, 11), (0x02, 10), (0x01, 11), (0xfd, 11)] {
        let writes = [
            (0x03, 0x08),
            (0x12, 0xff),
            (0x13, 0x0f),
            (0x2d, pmon),
            (0x4c, 0x03),
        ];
        let end = first_end(rt.alloc(), &writes)?;
        assert!(rt; end == Some((sample, 0x02)), "PMON {pmon:02x}");
    }
    Ok(())
}

// Both writes come before the first poll, and voice 1 would end its block in sample 10, too.
#[test]
fn the_last_write_of_kon_before_a_poll_counts(rt: HostRuntime) -> Result<(), Fail> {
    for (first, last, want) in [
        (0x00, 0x01, Some((10, 0x01))),
        (0x01, 0x00, None),
        (0x01, 0x02, Some((10, 0x02))),
        (0x02, 0x03, Some((10, 0x03))),
    ] {
        let end = first_end(rt.alloc(), &[(0x13, 0x10), (0x4c, first), (0x4c, last)])?;
        assert!(rt; end == want, "KON {first:02x} and {last:02x}");
    }
    Ok(())
}

// CCh is no other name of 4Ch, KON.
#[test]
fn no_register_is_written_from_80h_on(rt: HostRuntime) -> Result<(), Fail> {
    let end = first_end(rt.alloc(), &[(0xcc, 0x01)])?;
    assert!(rt; end == None);
    let end = first_end(rt.alloc(), &[(0x4c, 0x01), (0xcc, 0x00)])?;
    assert!(rt; end == Some((10, 0x01)));
    Ok(())
}

/// Whether registers read as these bytes.
fn are_read(stage: &Stage, wanted: &[(u8, u8)]) -> bool {
    wanted
        .iter()
        .all(|(address, value)| stage.dsp.reg_read(*address) == *value)
}

// Each register keeps the byte that is written, also one without a function. What is written to ENVX and OUTX of voice 0 stays until its next sample, and KON
// keeps its value after it is latched.
#[test]
fn registers_keep_what_is_written(rt: HostRuntime) -> Result<(), Fail> {
    let kept = [(0x0a, 0x12), (0x1d, 0x34), (0x0e, 0x56), (0x4c, 0x01)];
    let mut stage = one_voice(rt.alloc())?;
    write_all(&mut stage.dsp, &kept);
    write_all(&mut stage.dsp, &[(0x08, 0x55), (0x09, 0xaa)]);
    assert!(rt; are_read(&stage, &[(0x08, 0x55), (0x09, 0xaa)]));
    assert!(rt; are_read(&stage, &kept));
    stage.play(4, 0);
    assert!(rt; are_read(&stage, &[(0x08, 0x00), (0x09, 0x00)]));
    assert!(rt; are_read(&stage, &kept));
    Ok(())
}
