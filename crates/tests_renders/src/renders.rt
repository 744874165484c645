// Worked renders and fades.
ghost use Rattle.std.specs.Prelude.{◌≡◌, ◌≤◌};
ghost use Rattle.num_fix.specs.Limits.{max_frames};

use crate::openings::{SILENT, chip_of, file};
use aram_core::Aram;
use chip_form::Chip;
use num_fix::Frame;
use render_core::{Render, faded};
use spc_form::SpcFile;
use std::alloc::Global;
use std::process::Abort;
use std::test::Fail;
use test_support::FIVE;
use trace_form::Record;

/// All frames and records of a render, the number of its batches, and the samples that its chip made.
#[derive(Drop)]
struct Given {
    frames: Vec<Frame>,
    records: Vec<Record>,
    batches: u64,
    made: u32,
}

/// Gives all that is to come of a render.
fn give_all<C: Chip>(
    render: &mut Render<C>,
    frames: &mut Vec<Frame>,
    records: &mut Vec<Record>,
) -> Result<(), Fail> {
    'pieces: loop {
        let piece = render.next_piece();
        frames.extend_from_slice(piece.frames)?;
        records.extend_from_slice(piece.records)?;
        if piece.done {
            return Ok(());
        }
    }
}

/// Renders so many samples of a file over a chip, with the records of voice 0.
fn render_over<C: Chip>(alloc: Global, file: &SpcFile, chip: C, samples: u32) -> Result<Given, Fail>
    requires few { samples ≤ max_frames }
    requires sample { C.sample chip ≡ 0 }
    requires batches { C.batches chip ≡ 0 }
{
    let mut render = Render::open(alloc, file, chip, samples, 0x01)?;
    let mut given = Given {
        frames: Vec::new(alloc),
        records: Vec::new(alloc),
        batches: 0,
        made: 0,
    };
    give_all(&mut render, &mut given.frames, &mut given.records)?;
    given.batches = render.counts().batches;
    given.made = render.chip().sample();
    Ok(given)
}

/// Renders so many samples of a file of these pieces, with the records of voice 0.
fn rendered(
    alloc: Global,
    sound: &[(usize, &[u8])],
    program: &[u8],
    samples: u32,
) -> Result<Given, Fail>
    requires { samples ≤ max_frames }
{
    let file = file(alloc, sound, program)?;
    let chip = chip_of(alloc, &file)?;
    render_over(alloc, &file, chip, samples)
}

/// A record of voice 0 that plays the block at 0500h.
fn voice(sample: u32, level: u16, out: i16) -> Record {
    Record::Voice {
        sample,
        voice: 0,
        level,
        out,
        block: 0x0500,
        keyed: false,
        ended: false,
    }
}

const LOUD: Frame = Frame {
    left: 4000,
    right: 4000,
};

/// The key on of voice 0.
const KEYED_RECORD: Record = Record::Voice {
    sample: 0,
    voice: 0,
    level: 0,
    out: 0,
    block: 0,
    keyed: true,
    ended: false,
};

/// The first frames of the voice.
const EIGHT: [Frame; 8] = [SILENT, SILENT, SILENT, SILENT, SILENT, SILENT, LOUD, LOUD];

/// The records of the voice in eight samples.
fn records_of_eight() -> [Record; 8] {
    [
        KEYED_RECORD,
        voice(1, 0, 0),
        voice(2, 0, 0),
        voice(3, 0, 0),
        voice(4, 0, 0),
        voice(5, 0, 0),
        voice(6, 2032, 4064),
        voice(7, 2032, 4064),
    ]
}

/// Checks a render of eight samples, which its chip made as one batch.
fn look_at_eight(rt: &impl Abort, eight: &Given) {
    assert!(rt; eight.frames.as_slice() == EIGHT.as_slice());
    assert!(rt; eight.records.as_slice() == records_of_eight().as_slice());
    assert!(rt; (eight.batches, eight.made) == (1, 8));
}

#[test]
fn a_voice_is_heard_from_sample_six_on(rt: HostRuntime) -> Result<(), Fail> {
    let eight = rendered(rt.alloc(), FIVE, &[], 8)?;
    look_at_eight(&rt, &eight);
    Ok(())
}

/// Checks 200 frames that are silent up to sample 6, made in four batches.
fn look_at_200(rt: &impl Abort, long: &Given) {
    assert!(rt; (long.frames.len(), long.batches) == (200, 4));
    assert!(rt; long.frames.iter().take(6).all(|frame| *frame == SILENT));
    assert!(rt; long.frames.iter().skip(6).all(|frame| *frame == LOUD));
}

#[test]
fn a_voice_is_heard_on_where_the_program_stops(rt: HostRuntime) -> Result<(), Fail> {
    let long = rendered(rt.alloc(), FIVE, &[0xFF], 200)?;
    look_at_200(&rt, &long);
    Ok(())
}

/// 14 NOPs, and then a write of port 0 whose last cycle is that of a sample's end.
const LATE_WRITE: [u8; 19] = [
    0, 0, 0, 0, 0, 0, 0, 0, 0, 0, 0, 0, 0, 0, 0x8F, 0x5A, 0xF4, 0x2F, 0xFE,
];

/// Whether so many silent frames were given, and so many records of that write.
fn are_silent_with_writes(all: &Given, samples: u32, writes: usize) -> bool {
    let port = Record::Port {
        sample: 1,
        port: 0,
        value: 0x5A,
    };
    all.frames.len() == samples as usize
        && all.frames.iter().all(|frame| *frame == SILENT)
        && all.records.iter().filter(|item| **item == port).count() == writes
}

#[test]
fn records_after_the_last_frame_are_dropped(rt: HostRuntime) -> Result<(), Fail> {
    for (samples, writes) in [(0, 0), (1, 0), (2, 1), (3, 1)] {
        assert!(rt; samples <= 3);
        let all = rendered(rt.alloc(), &[], &LATE_WRITE, samples)?;
        assert!(rt; are_silent_with_writes(&all, samples, writes), "{samples}");
    }
    Ok(())
}

/// Adds the frames of a render that is sent on to a length, and gives what it then returns: whether it is done, the next sample
/// of its chip, and the samples made in all.
fn send_on<C: Chip>(
    alloc: Global,
    render: &mut Render<C>,
    samples: u32,
    frames: &mut Vec<Frame>,
) -> Result<(bool, u32, u64), Fail>
    requires { samples ≤ max_frames }
{
    if render.is_done() && render.chip().sample() <= samples {
        render.aim(samples);
    }
    let mut records = Vec::new(alloc);
    give_all(render, frames, &mut records)?;
    Ok((render.is_done(), render.chip().sample(), render.total()))
}

/// Sends a render of three samples to its end, on to sample 8, back to 3 and to 8 again.
fn go_back_and_on<C: Chip>(
    alloc: Global,
    render: &mut Render<C>,
    memory: &mut Aram,
    frames: &mut Vec<Frame>,
) -> Result<[(bool, u32, u64); 3], Fail> {
    let third = send_on(alloc, render, 3, frames)?;
    if !render.is_done() {
        return Ok([third; 3]);
    }
    memory.copy_from(render.memory());
    let saved = render.save();
    let eighth = send_on(alloc, render, 8, frames)?;
    if render.is_done() {
        render.load(&saved, memory);
    }
    let again = send_on(alloc, render, 8, frames)?;
    Ok([third, eighth, again])
}

/// The same over a chip, from its opening on.
fn go_back_and_on_over<C: Chip>(
    alloc: Global,
    file: &SpcFile,
    chip: C,
    memory: &mut Aram,
    frames: &mut Vec<Frame>,
) -> Result<[(bool, u32, u64); 3], Fail>
    requires sample { C.sample chip ≡ 0 }
    requires batches { C.batches chip ≡ 0 }
{
    let mut render = Render::open(alloc, file, chip, 3, 0)?;
    go_back_and_on(alloc, &mut render, memory, frames)
}

/// A memory of zeros.
fn zeros(alloc: Global) -> Result<Aram, Fail> {
    let image = vec![in alloc; 0u8; 0x10000]?;
    Ok(Aram::from_image(alloc, &image)?)
}

/// A render goes from sample 3 to 8, back to 3 and to 8 again. Its chip makes 13 samples in all.
#[test]
fn a_render_is_saved_loaded_and_sent_on(rt: HostRuntime) -> Result<(), Fail> {
    let mut frames = Vec::new(rt.alloc());
    let mut memory = zeros(rt.alloc())?;
    let playing = file(rt.alloc(), FIVE, &[])?;
    let chip = chip_of(rt.alloc(), &playing)?;
    let known = go_back_and_on_over(rt.alloc(), &playing, chip, &mut memory, &mut frames)?;
    assert!(rt; known == [(true, 3, 3), (true, 8, 8), (true, 8, 13)]);
    assert!(rt; frames.as_slice() == WANTED.as_slice());
    Ok(())
}

/// The first three frames, the next five, and those once more.
const WANTED: [Frame; 13] = [
    SILENT, SILENT, SILENT, SILENT, SILENT, SILENT, LOUD, LOUD, SILENT, SILENT, SILENT, LOUD, LOUD,
];

#[test]
fn a_fade_of_32_frames(rt: HostRuntime) {
    for (at, left, right, wanted_left, wanted_right) in [
        (31999, 4000, -4000, 4000, -4000),
        (32000, 4000, -4000, 3875, -3875),
        (32001, 4000, -4000, 3750, -3750),
        (32030, 4000, -4000, 125, -125),
        (32031, 4000, -4000, 0, 0),
        // rounded towards zero
        (32021, 3, -3, 0, 0),
        (32000, -32768, 32767, -31744, 31743),
    ] {
        assert!(rt; at < 32032);
        let frame = faded(Frame { left, right }, at, 32032, 32);
        let wanted = Frame {
            left: wanted_left,
            right: wanted_right,
        };
        assert!(rt; frame == wanted, "at {at}");
    }
}
