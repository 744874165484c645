// A render as the bytes of its sound file and of its trace, and its report, over any chip.
ghost use Rattle.std.specs.Prelude.{◌≡◌, ◌+◌, ◌*◌, ◌<◌, ◌≤◌, ◌++◌, [], length, true, false, IfOk, is_some, unwrap_or};
ghost use Rattle.std.specs.List.{flat_map};
ghost use Rattle.wav_form.specs.Wave.{frame_bytes, header_of, stereo_wave};
ghost use Rattle.trace_form.specs.Line.{lines_of};
ghost use Rattle.trace_form.specs.declared.text.TheConstants.{LINE_SIZE};
ghost use Rattle.render_core.specs.Fade.{faded_from, faded_frames};
ghost use Rattle.render_core.specs.RenderState.{frames_to_come, records_to_come, counts_to_come};
ghost use Rattle.render_files.specs.RenderReport.{sound_report};
ghost use Rattle.num_fix.specs.Limits.{max_frames};
ghost use Rattle.render_files.specs.RenderFiles.{stereo_size, max_bytes_of_frames, max_bytes_of_lines, trace_of, to_come_of, wave_from_piece, trace_from_piece, held_of, report_of, work_of, IsUnmade};
ghost use Rattle.report_text.specs.Capacity.{buffer_capacity};

use crate::rows::{STEREO_SIZE, put_frames};
use crate::sound_report::put_sound_report;
use chip_form::Chip;
use command_runner::{OutOfMemory, Pieces};
use num_fix::Frame;
use render_core::{Render, faded};
use report_text::FixedBuffer;
use std::alloc::Global;
use std::marker::Model;
use trace_form::{FRAME_CAPACITY, LINE_SIZE, RECORD_CAPACITY, Record, line};
use wav_form::put_frame;

/// The bytes of the most frames that a piece of a render has.
const WAVE_PIECE: usize = STEREO_SIZE * FRAME_CAPACITY;

/// The bytes of the most lines that it has.
const TRACE_PIECE: usize = LINE_SIZE * RECORD_CAPACITY;

/// A render over any chip that is turned into the bytes of a sound file, and of a trace where there is one, and then
/// into a report.
#[derive(Drop)]
pub struct RenderFiles<C: Chip> {
    render: Render<C>,
    made: u32,
    samples: u32,
    fade: u32,
    is_traced: bool,
    wave: FixedBuffer,
    trace: FixedBuffer,
    is_done: bool,
    report: FixedBuffer,
}

impl<C: Chip> Model for RenderFiles<C> {
    ghost use Rattle.render_files.specs.RenderFiles.{FilesState, IsComplete};
    ghost use Rattle.std.specs.Coded.{codes};
    ghost use Rattle.aram_core.specs.contracts.page_set.PageSet as page_set;

    ghost Value = { FilesState C.State };

    ghost coded = { Prim.hlevel (codes, page_set.the_row.coded) };

    ghost view = { λ f. record {
      render = f.render;
      made = f.made;
      samples = f.samples;
      fade = f.fade;
      is_traced = f.is_traced;
      wave = f.wave;
      trace = f.trace;
      is_done = f.is_done;
    } };

    ghost invariant = { λ f. IsComplete C.meaning f.render f.made f.samples f.fade f.is_done f.report };
}

/// Adds the bytes of frames, the first of which is frame `at` of so many, of which the last `fade` fade.
fn put_faded_frames(wave: &mut FixedBuffer, frames: &[Frame], at: u32, samples: u32, fade: u32)
    requires room { length wave.old + stereo_size * length frames.now ≤ buffer_capacity }
    requires inside { at + length frames.now ≤ samples }
    requires within { fade ≤ samples }
    ensures { wave.new ≡ wave.old ++ flat_map frame_bytes (faded_from at samples fade frames.now) }
{
    if at + frames.len() as u32 <= samples - fade {
        return put_frames(wave, frames);
    }
    let mut place = at;
    for frame in frames {
        wave.append(&put_frame(faded(*frame, place, samples, fade)));
        place += 1;
    }
}

/// Adds the lines of records.
fn put_lines(trace: &mut FixedBuffer, records: &[Record])
    requires { length trace.old + LINE_SIZE * length records.now ≤ buffer_capacity }
    ensures { trace.new ≡ trace.old ++ lines_of records.now }
{
    for record in records {
        trace.append(line(record).bytes());
    }
}

/// The buffers that a render's files are made in.
#[derive(Drop)]
struct RenderBuffers {
    wave: FixedBuffer,
    trace: FixedBuffer,
    report: FixedBuffer,
}

impl RenderBuffers {
    /// Empty buffers.
    fn new(alloc: Global) -> Result<RenderBuffers, OutOfMemory>
        ensures wave { IfOk result (λ buffers. buffers.wave ≡ []) }
        ensures trace { IfOk result (λ buffers. buffers.trace ≡ []) }
        ensures report { IfOk result (λ buffers. buffers.report ≡ []) }
    {
        Ok(RenderBuffers {
            wave: FixedBuffer::new(alloc)?,
            trace: FixedBuffer::new(alloc)?,
            report: FixedBuffer::new(alloc)?,
        })
    }
}

impl<C: Chip> RenderFiles<C> {
    /// The files of a render of so many samples that has made nothing yet; the last `fade` samples fade out. Without a
    /// trace its records are dropped. All memory is allocated here, and no later call takes memory.
    pub fn open(
        alloc: Global,
        render: Render<C>,
        samples: u32,
        fade: u32,
        is_traced: bool,
    ) -> Result<RenderFiles<C>, OutOfMemory>
        requires unmade { IsUnmade C.meaning render samples }
        requires limit { samples ≤ max_frames }
        requires within { fade ≤ samples }
        ensures wave { IfOk result (λ files. header_of 2 samples ++ (to_come_of C.meaning files).wave
            ≡ stereo_wave (faded_frames (frames_to_come C.meaning render) fade)) }
        ensures trace { IfOk result (λ files. (to_come_of C.meaning files).trace ≡ trace_of is_traced (records_to_come C.meaning render)) }
        ensures report { IfOk result (λ files. report_of C.meaning files ≡ sound_report samples (counts_to_come C.meaning render)) }
    {
        let buffers = RenderBuffers::new(alloc)?;
        Ok(RenderFiles {
            render,
            made: 0,
            samples,
            fade,
            is_traced,
            wave: buffers.wave,
            trace: buffers.trace,
            is_done: false,
            report: buffers.report,
        })
    }

    /// Adds the next piece of the render, and answers whether it is the last one.
    fn add_piece(&mut self) -> bool
        requires wave_capacity { length self.old.wave + max_bytes_of_frames ≤ buffer_capacity }
        requires trace_capacity { length self.old.trace + max_bytes_of_lines ≤ buffer_capacity }
        ensures wave_to_come { wave_from_piece C.meaning self.old ≡ wave_from_piece C.meaning self.new }
        ensures trace_to_come { trace_from_piece C.meaning self.old ≡ trace_from_piece C.meaning self.new }
        ensures wave_done { result ≡ true → (to_come_of C.meaning self.new).wave ≡ [] }
        ensures trace_done { result ≡ true → (to_come_of C.meaning self.new).trace ≡ [] }
        ensures less_work { result ≡ false → work_of self.new < work_of self.old }
        ensures report { report_of C.meaning self.new ≡ report_of C.meaning self.old }
        ensures counted { result ≡ true → self.new.render.bus.book.counts ≡ counts_to_come C.meaning self.new.render }
    {
        let piece = self.render.next_piece();
        put_faded_frames(
            &mut self.wave,
            piece.frames,
            self.made,
            self.samples,
            self.fade,
        );
        if self.is_traced {
            put_lines(&mut self.trace, piece.records);
        }
        self.made += piece.frames.len() as u32;
        piece.done
    }

    /// Writes the report, once the last piece is made.
    fn put_report(&mut self)
        requires { self.old.render.bus.book.counts ≡ counts_to_come C.meaning self.old.render }
        ensures { self.new ≡ record self.old { is_done = true } }
    {
        self.report.clear();
        put_sound_report(&mut self.report, self.samples, self.render.counts());
        self.is_done = true;
    }

    /// Adds pieces while there is room for one more, and answers whether the last one is among them.
    fn add_pieces(&mut self) -> bool
        requires wave { self.old.wave ≡ [] }
        requires trace { self.old.trace ≡ [] }
        ensures wave_to_come { (to_come_of C.meaning self.old).wave ≡ wave_from_piece C.meaning self.new }
        ensures trace_to_come { (to_come_of C.meaning self.old).trace ≡ trace_from_piece C.meaning self.new }
        ensures wave_done { result ≡ true → (to_come_of C.meaning self.new).wave ≡ [] }
        ensures trace_done { result ≡ true → (to_come_of C.meaning self.new).trace ≡ [] }
        ensures less_work { result ≡ false → work_of self.new < work_of self.old }
        ensures report { report_of C.meaning self.new ≡ report_of C.meaning self.old }
        ensures counted { result ≡ true → self.new.render.bus.book.counts ≡ counts_to_come C.meaning self.new.render }
    {
        'pieces: loop {
            let done = self.add_piece();
            if done || !self.wave.has_room(WAVE_PIECE) || !self.trace.has_room(TRACE_PIECE) {
                return done;
            }
        }
    }
}

impl<C: Chip> Pieces for RenderFiles<C> {
    ghost held = { held_of };

    ghost to_come = { to_come_of C.meaning };

    ghost report = { report_of C.meaning };

    ghost is_done = { λ f. f.is_done };

    ghost work = { work_of };

    fn make_next(&mut self) -> bool {
        self.wave.clear();
        self.trace.clear();
        let done = self.add_pieces();
        self.is_done = false;
        if done {
            self.put_report();
        }
        done
    }

    fn wave(&self) -> &[u8] {
        self.wave.as_slice()
    }

    fn trace(&self) -> &[u8] {
        self.trace.as_slice()
    }

    fn report(&self) -> &[u8] {
        self.report.as_slice()
    }
}
