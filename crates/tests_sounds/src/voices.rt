//! Worked examples: one key on and eight steps, one by one and over a batch, and pitches that an output modulates.

ghost use Rattle.std.specs.Prelude.{◌≡◌, ◌<◌, ℕ, slice_index};

use crate::sources::{memory_of_a_source, put_all};
use aram_core::Aram;
use gauss_table::GaussTable;
use rate_clock::RateClock;
use std::alloc::Global;
use std::process::Abort;
use std::test::Fail;
use voice_batch::{PlayedRows, Workspace, play};
use voice_unit::{BatchRows, OutRow, Voice, VoiceIn, VoiceOut, VoiceReads, VoiceRegs, VoiceView};

/// What a step reads in sample `k`, where a key on waits for the first poll.
fn input_of(k: u32) -> VoiceIn
    ensures { result.noise < 0x8000 }
{
    VoiceIn {
        dir: 2,
        modulated: false,
        previous: 0,
        noisy: false,
        noise: 0x4000,
        reset: false,
        poll: k % 2 == 0,
        koff: false,
        kon: k == 0,
    }
}

/// Registers of a voice that plays that source at its own pitch, at the highest direct level.
fn registers() -> VoiceRegs
    ensures { result.pitch < 0x4000 }
{
    VoiceRegs {
        pitch: 0x1000,
        srcn: 0,
        adsr1: 0,
        adsr2: 0,
        gain: 0x7f,
    }
}

#[test]
fn a_key_on_is_silent_for_six_steps(rt: HostRuntime) -> Result<(), Fail> {
    let memory = memory_of_a_source(rt.alloc())?;
    let table = GaussTable::straight(rt.alloc())?;
    let regs = registers();
    let mut clock = RateClock::new();
    let mut voice = Voice::new();
    for (k, want) in (0..8u32).zip([0, 0, 0, 0, 0, 0, 4064, 4064]) {
        clock.step();
        let answer = voice.step(&regs, &input_of(k), &memory, &table, &clock);
        assert!(rt; answer.out == want, "at step {k}");
        assert!(rt; answer.keyed == (k == 0));
    }
    assert!(rt; voice.delay() == 0);
    assert!(rt; voice.block() == 0x0500);
    Ok(())
}

// A voice that was never keyed stands at a block at 0000h. Its header 01h says that it ends without a loop, and is not looked at in the step after the key on.
#[test]
fn a_key_on_leaves_the_block_before_it(rt: HostRuntime) -> Result<(), Fail> {
    let mut memory = memory_of_a_source(rt.alloc())?;
    put_all(&mut memory, 0x0000, &[0x01]);
    let table = GaussTable::straight(rt.alloc())?;
    let regs = registers();
    let mut clock = RateClock::new();
    let mut voice = Voice::new();
    for (k, want) in (0..8u32).zip([0, 0, 0, 0, 0, 0, 4064, 4064]) {
        clock.step();
        let answer = voice.step(&regs, &input_of(k), &memory, &table, &clock);
        assert!(rt; answer.out == want, "at step {k}");
    }
    Ok(())
}

// The key offs of steps 7 and 9, between two polls, are lost. That of step 10 begins the release: the level falls to 7E8h and then to 7E0h, at which 4096 is
// heard as 4048 and as 4032.
#[test]
fn a_key_off_between_two_polls_is_lost(rt: HostRuntime) -> Result<(), Fail> {
    let memory = memory_of_a_source(rt.alloc())?;
    let table = GaussTable::straight(rt.alloc())?;
    let regs = registers();
    let mut clock = RateClock::new();
    let mut voice = Voice::new();
    for (k, want) in (0..13u32).zip([0, 0, 0, 0, 0, 0, 4064, 4064, 4064, 4064, 4064, 4048, 4032]) {
        let mut input = input_of(k);
        input.koff = k == 7 || k == 9 || k == 10;
        clock.step();
        let answer = voice.step(&regs, &input, &memory, &table, &clock);
        assert!(rt; answer.out == want, "at step {k}");
    }
    Ok(())
}

// Entry 64 of a directory stands a page after its first one: at 0300h after page 2, and at 0000h after page FFh. Its block of ones under the shift 11
// gives 2048, which is 2032 at the level 7F0h.
#[test]
fn a_directory_goes_over_pages_and_over_the_end_of_memory(rt: HostRuntime) -> Result<(), Fail> {
    let mut memory = memory_of_a_source(rt.alloc())?;
    put_all(&mut memory, 0x0000, &[0x00, 0x07, 0x00, 0x07]);
    put_all(&mut memory, 0x0300, &[0x00, 0x07, 0x00, 0x07]);
    let block = [0xb3, 0x11, 0x11, 0x11, 0x11, 0x11, 0x11, 0x11, 0x11];
    put_all(&mut memory, 0x0700, &block);
    let table = GaussTable::straight(rt.alloc())?;
    let mut regs = registers();
    regs.srcn = 0x40;
    for dir in [0x02, 0xff] {
        let mut clock = RateClock::new();
        let mut voice = Voice::new();
        for (k, want) in (0..8u32).zip([0, 0, 0, 0, 0, 0, 2032, 2032]) {
            let mut input = input_of(k);
            input.dir = dir;
            clock.step();
            let answer = voice.step(&regs, &input, &memory, &table, &clock);
            assert!(rt; answer.out == want, "at step {k} from page {dir:02x}");
        }
    }
    Ok(())
}

// A voice that plays blocks of 4096s goes to a block of zeros under filter 1, C7h: after 4096 these are 3840, 3600, 3374 and so on. Where it is heard again the
// middle two of the first four are mixed to 3592 + 6 = 3598, which is 3568 at the level 7F0h; without the last samples of before all would be 0.
#[test]
fn a_key_on_decodes_after_the_last_samples(rt: HostRuntime) -> Result<(), Fail> {
    let mut memory = memory_of_a_source(rt.alloc())?;
    put_all(&mut memory, 0x0204, &[0x00, 0x07, 0x00, 0x07]);
    put_all(&mut memory, 0x0700, &[0xc7, 0, 0, 0, 0, 0, 0, 0, 0]);
    let table = GaussTable::straight(rt.alloc())?;
    let mut regs = registers();
    let mut clock = RateClock::new();
    let mut voice = Voice::new();
    for k in 0..8u32 {
        clock.step();
        voice.step(&regs, &input_of(k), &memory, &table, &clock);
    }
    regs.srcn = 1;
    for (k, want) in (0..7u32).zip([4064, 0, 0, 0, 0, 0, 3568]) {
        clock.step();
        let answer = voice.step(&regs, &input_of(k), &memory, &table, &clock);
        assert!(rt; answer.out == want, "at step {k}");
    }
    Ok(())
}

/// What all voices read in a batch whose first sample takes the key on of voice 3.
fn rows_with_a_key_on() -> BatchRows
    ensures { (j : ℕ) → slice_index result.noise j < 0x8000 }
{
    let mut poll = [false; 64];
    let mut kon = [0; 64];
    poll[0] = true;
    kon[0] = 0x08;
    BatchRows::new([0; 64], poll, kon)
}

/// What voice 3 reads in a batch, with those registers.
fn reads_of_voice_3<'a>(
    rows: &'a BatchRows,
    memory: &'a Aram,
    table: &'a GaussTable,
) -> VoiceReads<'a>
    ensures regs { result.regs.pitch < 0x4000 }
    ensures voice { result.seen.voice ≡ 3 }
    ensures rows { result.rows.now ≡ rows.now }
{
    VoiceReads {
        regs: registers(),
        seen: VoiceView {
            voice: 3,
            dir: 2,
            pmon: 0,
            non: 0,
            koff: 0,
            reset: false,
        },
        rows,
        memory,
        table,
        clock: RateClock::new().after_samples(1),
    }
}

/// What an answer shows but for the level and the registers.
fn known(answer: &VoiceOut) -> (i16, u16, bool, bool) {
    (answer.out, answer.block, answer.ended, answer.keyed)
}

#[test]
fn a_run_gives_the_answers_of_its_steps(rt: HostRuntime) -> Result<(), Fail> {
    let memory = memory_of_a_source(rt.alloc())?;
    let table = GaussTable::straight(rt.alloc())?;
    let rows = rows_with_a_key_on();
    let reads = reads_of_voice_3(&rows, &memory, &table);
    let mut out = OutRow::silent();
    out.items[8].block = 0x1234;
    let mut voice = Voice::new();
    let previous = OutRow::silent();
    voice.run(8, &reads, &previous, &mut out);
    let silence = (0, 0x0500, false, false);
    let sound = (4064, 0x0500, false, false);
    let keyed = (0, 0, false, true);
    let wanted = [
        keyed, silence, silence, silence, silence, silence, sound, sound,
    ];
    for (answer, want) in out.items.iter().zip(wanted) {
        assert!(rt; known(answer) == want);
    }
    // what stands after the run stays
    assert!(rt; known(&out.items[8]) == (0, 0x1234, false, false));
    assert!(rt; voice.block() == 0x0500);
    Ok(())
}

#[test]
fn a_silent_row_has_no_sound(rt: HostRuntime) {
    let row = OutRow::silent();
    for answer in &row.items {
        assert!(rt; known(answer) == (0, 0, false, false));
        assert!(rt; (answer.level, answer.envx, answer.outx) == (0, 0, 0));
    }
}

/// The step, of 100 from a key on, in which a voice that is modulated by such an output first ends its block. It has three of
/// the block's four groups when it is heard in step 6, and comes to the fourth, the end with it, once it has gone 4000h.
fn first_end(rt: HostRuntime, pitch: u16, previous: i16) -> Result<Option<u32>, Fail>
    requires { pitch < 0x4000 }
{
    let memory = memory_of_a_source(rt.alloc())?;
    let table = GaussTable::straight(rt.alloc())?;
    let mut regs = registers();
    regs.pitch = pitch;
    let mut clock = RateClock::new();
    let mut voice = Voice::new();
    for k in 0..100u32 {
        let mut input = input_of(k);
        input.modulated = true;
        input.previous = previous;
        clock.step();
        if voice.step(&regs, &input, &memory, &table, &clock).ended {
            return Ok(Some(k));
        }
    }
    Ok(None)
}

#[test]
fn an_output_modulates_the_pitch_of_the_next_voice(rt: HostRuntime) -> Result<(), Fail> {
    for (pitch, previous, want) in [
        // at 1000h, in four steps of sound
        (0x1000, 0, Some(10)),
        // at 0FFFh in five, and at 1002h in four
        (0x0fff, 0x1f, Some(11)),
        (0x0fff, 0x20, Some(10)),
        // at 0FFCh in five
        (0x1000, -1, Some(11)),
        // at 1800h in three, and at 0800h in eight
        (0x1000, 0x4000, Some(9)),
        (0x1000, -0x4000, Some(14)),
        // at 0000h never
        (0x3fff, -0x8000, None),
        // at 7FEEh in one
        (0x3fff, 0x7fff, Some(7)),
    ] {
        let step = first_end(rt, pitch, previous)?;
        assert!(rt; step == want, "at {pitch} and {previous}");
    }
    Ok(())
}

/// Rows before a voice plays.
fn unplayed() -> PlayedRows
    ensures { (j : ℕ) → j < 64 → slice_index result.ends j ≡ 0 }
{
    PlayedRows {
        outs: [0; 64],
        ends: [0; 64],
    }
}

/// The bit of voice 3 in each sample of a batch from its key on in which it comes to an end, at a pitch that the outputs of voice 2 modulate. It plays
/// the batch, and beside that makes the steps one by one.
fn ends_of_a_modulated_voice(
    rt: &impl Abort,
    alloc: Global,
    pitch: u16,
    previous: &[i16; 64],
) -> Result<[u8; 64], Fail>
    requires { pitch < 0x4000 }
{
    let mut memory = memory_of_a_source(alloc)?;
    let block = [0xc3, 0x71, 0x9e, 0x05, 0xd8, 0x2b, 0xf4, 0x63, 0xac];
    put_all(&mut memory, 0x0600, &block);
    let table = GaussTable::straight(alloc)?;
    let rows = rows_with_a_key_on();
    let mut reads = reads_of_voice_3(&rows, &memory, &table);
    reads.regs.pitch = pitch;
    reads.seen.pmon = 0x08;
    let mut work = Workspace::new(alloc, &table)?;
    let mut made = unplayed();
    let mut voice = Voice::new();
    let last = play(&mut voice, 64, &reads, previous, &mut work, &mut made);
    let mut beside = Voice::new();
    for j in 0..64u8 {
        let place = usize::from(j);
        let input = reads.seen.input(&rows, previous[place], j);
        let clock = reads.clock.after_samples(j);
        let answer = beside.step(&reads.regs, &input, &memory, &table, &clock);
        assert!(rt; answer.out == made.outs[place], "in sample {j} at {pitch}");
        assert!(rt;
            answer.ended == (made.ends[place] == 0x08),
            "in sample {j} at {pitch}"
        );
        assert!(rt; j < 63 || known(&answer) == known(&last));
    }
    Ok(made.ends)
}

// At 7FEEh the position comes past the end of a group in each step, and stays before the end of the next one. So each sample from step 7 on reads a group,
// of which every fourth ends a block.
#[test]
fn at_its_greatest_pitch_a_voice_reads_a_group_a_sample(rt: HostRuntime) -> Result<(), Fail> {
    let ends = ends_of_a_modulated_voice(&rt, rt.alloc(), 0x3fff, &[0x7fff; 64])?;
    for (j, bit) in (0..64u32).zip(ends) {
        let want = if j >= 7 && j % 4 == 3 { 0x08 } else { 0 };
        assert!(rt; bit == want, "in sample {j}");
    }
    Ok(())
}

// This compares two ways of making the same samples: as a batch, and step by step. At 2800h and 3FFFh the greatest of these outputs can lead the position
// to its end, at the others none can.
#[test]
fn a_modulated_voice_plays_a_batch_as_its_steps(rt: HostRuntime) -> Result<(), Fail> {
    let mut previous = [0x1234; 64];
    for k in 0..16 {
        previous[4 * k] = 0x7ffe;
        previous[4 * k + 1] = -0x8000;
        previous[4 * k + 2] = -0x0765;
    }
    for pitch in [0, 0x07d1, 0x1000, 0x1fff, 0x2800, 0x3fff] {
        ends_of_a_modulated_voice(&rt, rt.alloc(), pitch, &previous)?;
    }
    Ok(())
}

/// A table whose weights are these three, over and over.
fn table_of(alloc: Global, weights: [i16; 3]) -> Result<GaussTable, Fail> {
    let mut bytes = [0u8; 1024];
    for i in 0..512usize {
        let bits = weights[i % 3].cast_unsigned();
        bytes[2 * i] = (bits % 0x100) as u8;
        bytes[2 * i + 1] = (bits / 0x100) as u8;
    }
    Ok(GaussTable::read(alloc, &bytes)?)
}

#[test]
fn a_span_sounds_as_its_steps_by_any_table(rt: HostRuntime) -> Result<(), Fail> {
    let mut memory = memory_of_a_source(rt.alloc())?;
    let loud = [0xc3, 0x7f, 0x80, 0x35, 0x9c, 0x12, 0xef, 0x48, 0xb6];
    put_all(&mut memory, 0x0500, &loud);
    put_all(&mut memory, 0x0600, &loud);
    let rows = rows_with_a_key_on();
    let mut regs = registers();
    regs.pitch = 0x0b57;
    // the first three tables have weights from 0 to 2,047 alone
    for (which, weights) in [
        [0, 1, 1023],
        [2047, 2047, 2047],
        [1024, 37, 1500],
        [2048, 0, 900],
        [-1, 700, 1300],
        [-32768, 32767, 5],
    ]
    .into_iter()
    .enumerate()
    {
        let table = table_of(rt.alloc(), weights)?;
        let reads = VoiceReads {
            regs,
            seen: VoiceView {
                voice: 3,
                dir: 2,
                pmon: 0,
                non: 0,
                koff: 0,
                reset: false,
            },
            rows: &rows,
            memory: &memory,
            table: &table,
            clock: RateClock::new().after_samples(1),
        };
        let mut work = Workspace::new(rt.alloc(), &table)?;
        let mut made = unplayed();
        let mut stretched = Voice::new();
        play(&mut stretched, 64, &reads, &[0; 64], &mut work, &mut made);
        let mut stepped = Voice::new();
        let mut steps = OutRow::silent();
        stepped.run(64, &reads, &OutRow::silent(), &mut steps);
        for j in 0..64usize {
            assert!(rt;
                made.outs[j] == steps.items[j].out,
                "sample {j} by table {which}"
            );
        }
        assert!(rt; made.outs[20] != made.outs[21], "table {which}");
    }
    Ok(())
}
