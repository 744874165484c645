//! Worked examples over whole samples: keys, the echo's window, and the reach.

ghost use Rattle.std.specs.Prelude.{◌≤◌};

use crate::sources::put_all;
use crate::stage::{
    SILENT_FRAME, Stage, begin_in_silence, have_same_bytes, have_same_registers, keyed_voice,
    one_voice, write_all,
};
use aram_core::Aram;
use dsp_core::Dsp;
use num_fix::Frame;
use std::alloc::Global;
use std::process::Abort;
use std::test::Fail;
use trace_form::Record;

/// ENVX and OUTX of voice 0.
fn results(dsp: &Dsp) -> (u8, u8) {
    (dsp.reg_read(0x08), dsp.reg_read(0x09))
}

/// Whether a record is one of voice 0 that was not keyed.
fn is_quiet(record: &Record) -> bool {
    matches!(
        record,
        Record::Voice {
            voice: 0,
            keyed: false,
            ..
        }
    )
}

const SOUND: Frame = Frame {
    left: 4000,
    right: 4000,
};

/// The frames of a source that was keyed in the sample before them.
const SEVEN: [Frame; 7] = [
    SILENT_FRAME,
    SILENT_FRAME,
    SILENT_FRAME,
    SILENT_FRAME,
    SILENT_FRAME,
    SOUND,
    SOUND,
];

/// What was made in steps, and what the chip then returns.
#[derive(Drop)]
struct Made {
    frames: Vec<Frame>,
    records: Vec<Record>,
    /// ENVX and OUTX of voice 0, the second by an address above 7Fh.
    results: (u8, u8),
    sample: u32,
    batches: u64,
}

/// Writes registers, and then makes n samples.
fn take_step(stage: &mut Stage, writes: &[(u8, u8)], n: u8) {
    write_all(&mut stage.dsp, writes);
    if n <= 64 {
        stage.play(n, 0x01);
    }
}

impl Made {
    /// Nothing so far.
    fn none(alloc: Global) -> Made {
        Made {
            frames: Vec::new(alloc),
            records: Vec::new(alloc),
            results: (0, 0),
            sample: 0,
            batches: 0,
        }
    }

    /// Adds the last batch of a chip, and what that returns.
    fn add(&mut self, stage: &Stage) -> Result<(), Fail> {
        self.frames.extend_from_slice(stage.frames.as_slice())?;
        self.records.extend_from_slice(stage.records.as_slice())?;
        self.results = (stage.dsp.reg_read(0x08), stage.dsp.reg_read(0x89));
        self.sample = stage.dsp.sample();
        self.batches = stage.dsp.batches();
        Ok(())
    }

    /// Makes samples in steps: writes of registers, and then so many samples as one batch.
    fn take_all(&mut self, stage: &mut Stage, steps: &[(&[(u8, u8)], u8)]) -> Result<(), Fail> {
        for (writes, n) in steps {
            take_step(stage, *writes, *n);
            self.add(stage)?;
        }
        Ok(())
    }
}

/// What the chip whose voice 0 waits for a key on makes in steps.
fn played(alloc: Global, steps: &[(&[(u8, u8)], u8)]) -> Result<Made, Fail> {
    let mut stage = one_voice(alloc)?;
    let mut made = Made::none(alloc);
    made.take_all(&mut stage, steps)?;
    Ok(made)
}

/// Whether frames are silence and then these.
fn are_silence_then(frames: &[Frame], rest: &[Frame]) -> bool {
    frames.get(0) == Some(&SILENT_FRAME) && frames.iter().skip(1).eq(rest.iter())
}

/// Whether records are of the key on of voice 0 in sample 0, and of it in seven samples more.
fn are_of_one_key_on(records: &[Record]) -> bool {
    let keyed = Record::Voice {
        sample: 0,
        voice: 0,
        level: 0,
        out: 0,
        block: 0,
        keyed: true,
        ended: false,
    };
    records.len() == 8 && records.get(0) == Some(&keyed) && records.iter().skip(1).all(is_quiet)
}

#[test]
fn a_key_on_after_a_poll_is_lost_at_the_next(rt: HostRuntime) -> Result<(), Fail> {
    let made = played(rt.alloc(), &[(&[(0x4c, 0x01)], 1), (&[(0x4c, 0x01)], 7)])?;
    assert!(rt; are_silence_then(made.frames.as_slice(), &SEVEN));
    assert!(rt; are_of_one_key_on(made.records.as_slice()));
    assert!(rt; made.results == (127, 15) && (made.sample, made.batches) == (8, 2));
    Ok(())
}

#[test]
fn a_key_on_that_is_taken_back_before_its_poll_is_none(rt: HostRuntime) -> Result<(), Fail> {
    let made = played(rt.alloc(), &[(&[(0x4c, 0x01), (0x4c, 0x00)], 8)])?;
    assert!(rt; made.records.len() == 8 && made.records.iter().all(is_quiet));
    assert!(rt; made.frames.len() == 8 && begin_in_silence(made.frames.as_slice(), 8));
    Ok(())
}

/// Makes a batch, and looks at its frames and at what the chip then returns of voice 0.
fn play_once(rt: &impl Abort, stage: &mut Stage, n: u8, frames: &[Frame], known: (u8, u8)) {
    take_step(stage, &[], n);
    assert!(rt; stage.frames.as_slice() == frames);
    assert!(rt; results(&stage.dsp) == known);
}

#[test]
fn the_first_sound_shows_in_the_results(rt: HostRuntime) -> Result<(), Fail> {
    let mut stage = keyed_voice(rt.alloc(), 0x01)?;
    play_once(&rt, &mut stage, 6, &[SILENT_FRAME; 6], (0, 0));
    play_once(&rt, &mut stage, 1, &[SOUND], (127, 15));
    Ok(())
}

// Digits of -1 under the shift 12 give -4096, which is -4064 at the level 7F0h. That is F020h.
#[test]
fn outx_has_the_high_byte_of_a_negative_output(rt: HostRuntime) -> Result<(), Fail> {
    let mut stage = keyed_voice(rt.alloc(), 0x01)?;
    let block = [0xc3, 0xff, 0xff, 0xff, 0xff, 0xff, 0xff, 0xff, 0xff];
    put_all(&mut stage.memory, 0x0500, &block);
    take_step(&mut stage, &[], 7);
    assert!(rt; results(&stage.dsp) == (0x7f, 0xf0));
    Ok(())
}

#[test]
fn a_key_off_at_the_next_poll_releases(rt: HostRuntime) -> Result<(), Fail> {
    let keys: &[(u8, u8)] = &[(0x4c, 0x01), (0x5c, 0x01)];
    let again: &[(u8, u8)] = &[(0x4c, 0x01)];
    let taken_back: &[(u8, u8)] = &[(0x4c, 0x01), (0x5c, 0x00)];
    for (writes, want) in [(taken_back, SEVEN), (again, [SILENT_FRAME; 7])] {
        let made = played(rt.alloc(), &[(keys, 1), (writes, 7)])?;
        assert!(rt; are_silence_then(made.frames.as_slice(), &want));
    }
    Ok(())
}

#[test]
fn the_soft_reset_silences_from_the_next_sample_on(rt: HostRuntime) -> Result<(), Fail> {
    let made = played(rt.alloc(), &[(&[(0x4c, 0x01)], 8), (&[(0x6c, 0xa0)], 3)])?;
    assert!(rt;
        made.frames
            .iter()
            .skip(8)
            .eq([SOUND, SILENT_FRAME, SILENT_FRAME].iter())
    );
    Ok(())
}

/// Checks the samples, the batches, and the samples that were made in all.
fn look_at_numbers(rt: &impl Abort, dsp: &Dsp, sample: u32, batches: u64, total: u64) {
    assert!(rt; (dsp.sample(), dsp.batches(), dsp.total()) == (sample, batches, total));
}

#[test]
fn what_was_saved_plays_again(rt: HostRuntime) -> Result<(), Fail> {
    let rest = [SILENT_FRAME, SILENT_FRAME, SILENT_FRAME, SOUND, SOUND];
    let mut stage = one_voice(rt.alloc())?;
    take_step(&mut stage, &[(0x4c, 0x01)], 3);
    let third = stage.dsp.save();
    play_once(&rt, &mut stage, 5, &rest, (127, 15));
    stage.dsp.load(&third);
    // neither the batches nor the total go back
    look_at_numbers(&rt, &stage.dsp, 3, 2, 8);
    play_once(&rt, &mut stage, 5, &rest, (127, 15));
    look_at_numbers(&rt, &stage.dsp, 8, 3, 13);
    Ok(())
}

/// Voice 1 loops at a pitch modulated by voice 0, under ADSR, and both are heard in an echo with feedback.
const BENT_VOICE: [(u8, u8); 15] = [
    (0x10, 0x40),
    (0x11, 0xc0),
    (0x12, 0x34),
    (0x13, 0x0a),
    (0x15, 0x8a),
    (0x16, 0x2c),
    (0x2c, 0x30),
    (0x3c, 0x50),
    (0x2d, 0x02),
    (0x4d, 0x03),
    (0x0d, 0x60),
    (0x7f, 0x70),
    (0x0f, 0x10),
    (0x7d, 0x01),
    (0x6c, 0x00),
];

/// A chip with that voice beside the one that waits for a key on.
fn two_voices(alloc: Global) -> Result<Stage, Fail> {
    let mut stage = one_voice(alloc)?;
    write_all(&mut stage.dsp, &BENT_VOICE);
    Ok(stage)
}

/// Whether the next n samples, made one by one, are the frames of a batch.
fn are_made_one_by_one(split: &mut Stage, frames: &[Frame]) -> bool {
    for frame in frames {
        split.play(1, 0);
        if split.frames.as_slice() != [*frame].as_slice() {
            return false;
        }
    }
    true
}

// A key on waits in the first batch, which is silent for six samples; a key off holds from the third on, and noise takes the place of voice 0 in the last.
// Beyond those six samples this compares two ways of making the same samples: as a batch, and one by one.
#[test]
fn a_batch_is_its_samples_one_by_one(rt: HostRuntime) -> Result<(), Fail> {
    let mut whole = two_voices(rt.alloc())?;
    let mut split = two_voices(rt.alloc())?;
    for (n, write, silent) in [
        (64, (0x4c, 0x03), 6),
        (64, (0x4c, 0x01), 0),
        (63, (0x5c, 0x02), 0),
        (64, (0x3d, 0x01), 0),
    ] {
        play_beside(&rt, &mut whole, &mut split, n, write, silent);
    }
    look_beside(&rt, &whole, &split);
    Ok(())
}

/// Writes a register of both chips and plays so many samples, of which the first ones are silent: as a batch, and one by one.
fn play_beside(
    rt: &impl Abort,
    whole: &mut Stage,
    split: &mut Stage,
    n: u8,
    write: (u8, u8),
    silent: usize,
)
    requires { n ≤ 64 }
{
    write_all(&mut whole.dsp, &[write]);
    write_all(&mut split.dsp, &[write]);
    whole.play(n, 0);
    assert!(rt; begin_in_silence(whole.frames.as_slice(), silent));
    assert!(rt; are_made_one_by_one(split, whole.frames.as_slice()));
    assert!(rt; have_same_registers(&whole.dsp, &split.dsp));
}

/// Checks both chips at the end: one played 4 batches, the other 255.
fn look_beside(rt: &impl Abort, whole: &Stage, split: &Stage) {
    assert!(rt; (whole.dsp.batches(), split.dsp.batches()) == (4, 255));
    assert!(rt; have_same_bytes(&whole.memory, &split.memory));
}

/// A chip of which nothing is heard but the echo of one cell, 4032 on both sides, with these volumes of the echo.
fn lone_cell(alloc: Global, left: u8, right: u8) -> Result<Stage, Fail> {
    let zeros = vec![in alloc; 0u8; 0x10000]?;
    let mut memory = Aram::from_image(alloc, &zeros)?;
    put_all(&mut memory, 0xe000, &[0xc0, 0x0f, 0xc0, 0x0f]);
    let mut registers = [0; 128];
    registers[0x2c] = left;
    registers[0x3c] = right;
    registers[0x6c] = 0x20;
    registers[0x6d] = 0xe0;
    registers[0x7f] = 0x7f;
    Stage::open(alloc, &registers, memory)
}

// A sound of 4000 on the side that has a main volume; 4032 is read as 2016, filtered to 4000, and 3968 on the side that has a volume of the echo.
#[test]
fn each_side_has_its_own_volumes(rt: HostRuntime) -> Result<(), Fail> {
    let mut stage = one_voice(rt.alloc())?;
    take_step(&mut stage, &[(0x1c, 0x00), (0x4c, 0x01)], 7);
    let heard = Frame {
        left: 4000,
        right: 0,
    };
    assert!(rt; stage.frames.as_slice().get(6) == Some(&heard));
    let mut stage = lone_cell(rt.alloc(), 0x7f, 0)?;
    take_step(&mut stage, &[], 1);
    let heard = Frame {
        left: 3968,
        right: 0,
    };
    assert!(rt; stage.frames.as_slice() == [heard].as_slice());
    Ok(())
}

// 4064 at a voice's volume 80h, -128, is -4064, and at the main volume 7Fh -4033.
#[test]
fn a_volume_of_either_side_has_a_sign(rt: HostRuntime) -> Result<(), Fail> {
    for (register, left, right) in [(0x00, -4033, 4000), (0x01, 4000, -4033)] {
        let mut stage = one_voice(rt.alloc())?;
        take_step(&mut stage, &[(register, 0x80), (0x4c, 0x01)], 7);
        let heard = Frame { left, right };
        assert!(rt; stage.frames.as_slice().get(6) == Some(&heard));
    }
    Ok(())
}

/// How many bytes from an address on are 0.
fn zeros_from(memory: &Aram, from: u16) -> u32 {
    for k in 0..0x10000u32 {
        if memory.get(from.wrapping_add(k as u16)) != 0 {
            return k;
        }
    }
    0x10000
}

/// Whether all bytes of a memory between two addresses, both among them, have one value.
fn are_all(memory: &Aram, from: u16, to: u16, value: u8) -> bool {
    for at in from..=to {
        if memory.get(at) != value {
            return false;
        }
    }
    true
}

/// A chip whose echo, of 65 samples at first, wraps at the end of a memory of ones.
fn echo_over_the_end(alloc: Global) -> Result<Stage, Fail> {
    let ones = vec![in alloc; 0x11u8; 0x10000]?;
    let mut registers = [0; 128];
    registers[0x6d] = 0xff;
    registers[0x7d] = 0x01;
    Stage::open(alloc, &registers, Aram::from_image(alloc, &ones)?)
}

/// Makes samples in batches up to one of such a number, and looks at how many zeros then stand from FF00h on.
fn play_to(rt: &impl Abort, stage: &mut Stage, batches: &[u8], sample: u32, zeros: u32) {
    for n in batches {
        take_step(stage, &[], *n);
    }
    assert!(rt; (stage.dsp.sample(), zeros_from(&stage.memory, 0xff00)) == (sample, zeros));
}

#[test]
fn the_echo_wraps_in_its_window(rt: HostRuntime) -> Result<(), Fail> {
    let mut stage = echo_over_the_end(rt.alloc())?;
    play_to(&rt, &mut stage, &[64, 1], 65, 0x104);
    assert!(rt; are_all(&stage.memory, 0x0004, 0xfeff, 0x11));
    stage.dsp.reg_write(0x7d, 0x02);
    // the 512 cells of the first length are done, and the next is the first one again
    play_to(&rt, &mut stage, &[64, 64, 64, 64, 64, 64, 63], 512, 0x800);
    put_all(&mut stage.memory, 0xff00, &[0x11, 0x11, 0x11, 0x11]);
    play_to(&rt, &mut stage, &[1], 513, 0x800);
    play_to(&rt, &mut stage, &[64; 8], 1025, 0x804);
    Ok(())
}

/// Checks the pages that the samples to come read and write, and at whether the echo can write what they read.
fn look_at_reach(rt: &impl Abort, stage: &Stage, read: &[u8], written: &[u8], entangled: bool) {
    let (dsp, memory) = (&stage.dsp, &stage.memory);
    assert!(rt; (0..=255u8).all(|page| dsp.reads_page(memory, page) == read.contains(&page)));
    assert!(rt; (0..=255u8).all(|page| dsp.writes_page(page) == written.contains(&page)));
    assert!(rt; dsp.is_entangled(memory) == entangled);
}

#[test]
fn the_reach_has_the_start_of_a_voice_whose_key_on_waits(rt: HostRuntime) -> Result<(), Fail> {
    let mut stage = one_voice(rt.alloc())?;
    // the block at 0000h of all voices, the directory's entry at 0200h, and the echo's cell at E000h
    look_at_reach(&rt, &stage, &[0x00, 0x02, 0xe0], &[], false);
    // with the first block of voice 0 and the one to which it loops; and an echo that writes where that one is
    write_all(&mut stage.dsp, &[(0x4c, 0x01), (0x6c, 0x00), (0x6d, 0x06)]);
    look_at_reach(&rt, &stage, &[0x00, 0x02, 0x05, 0x06], &[0x06], true);
    Ok(())
}
