// A session as the bytes of its sound file, and its replies, over any chip.
ghost use Rattle.std.specs.Prelude.{◌≡◌, ◌+◌, ◌*◌, ◌<◌, ◌≤◌, ◌++◌, [], length, true, false, IfOk};
ghost use Rattle.wav_form.specs.Wave.{header_of, stereo_wave};
ghost use Rattle.cut_form.specs.CutBook.{opened_book, max_played_bytes};
ghost use Rattle.cut_form.specs.Session.{played_cuts};
ghost use Rattle.cut_form.specs.Slices.{cut_frames};
ghost use Rattle.cut_server.specs.ServerState.{book_of};
ghost use Rattle.cut_server.specs.Server.{pages_at, frames_to};
ghost use Rattle.cut_text.specs.Playing.{played_frames};
ghost use Rattle.cut_form.specs.GrowingFrames.{AreOfRun};
ghost use Rattle.session_files.specs.SessionRun.{left_to_play};
ghost use Rattle.session_files.specs.Replies.{report_on};
ghost use Rattle.session_files.specs.SessionFiles.{replies_of_server, to_come_of, held_of, report_of, work_of, is_finished, SessionGoesOn};
ghost use Rattle.report_text.specs.Capacity.{buffer_capacity};

use crate::OutOfMemory;
use crate::played::{PieceBuffers, put_played};
use crate::replies::put_line;
use crate::session_run::SessionRun;
use chip_form::Chip;
use command_runner::Pieces;
use cut_form::PLAYED_BYTES;
use cut_server::CutServer;
use cut_text::ScriptLines;
use report_text::FixedBuffer;
use std::alloc::Global;
use std::marker::Model;
use trace_form::Frames;

/// The most bytes of a reply's line.
const REPLY_BYTES: usize = 80;

/// A session over any chip that is turned into the bytes of a sound file, and then into its replies.
#[derive(Drop)]
pub struct SessionFiles<C: Chip> {
    run: SessionRun<C>,
    script: ScriptLines,
    next: usize,
    frames: Frames,
    wave: FixedBuffer,
    report: Vec<u8>,
}

impl<C: Chip> Model for SessionFiles<C> {
    ghost use Rattle.std.specs.Prelude.{◌≤◌, drop, length, vec_capacity};
    ghost use Rattle.session_files.specs.SessionFiles.{SessionFilesState, IsOnScript};

    ghost Value = { SessionFilesState C.State C.Saved };

    ghost view = { λ f. record {
      run = f.run;
      lines = drop f.next f.script;
      known = f.report.items;
      wave = f.wave;
    } };

    ghost invariant = { λ f. (f.next ≤ length f.script) × IsOnScript f.run (drop f.next f.script) f.report.items (vec_capacity f.report) };
}

impl<C: Chip> SessionFiles<C> {
    /// The files of a session on a server that stands at its opening. All memory is allocated here, that for the replies too, and
    /// no later call takes memory.
    pub fn open(
        alloc: Global,
        server: CutServer<C>,
        script: ScriptLines,
    ) -> Result<SessionFiles<C>, OutOfMemory>
        requires run { AreOfRun (frames_to C.meaning C.saving server) }
        requires opened { book_of server ≡ opened_book (pages_at C.meaning C.saving server) }
        ensures wave { let known = replies_of_server C.meaning C.saving server script in
            IfOk result (λ files. header_of 2 (played_frames 0 0 script) ++ (to_come_of C.meaning C.saving files).wave
            ≡ stereo_wave (cut_frames (frames_to C.meaning C.saving server) (played_cuts known))) }
        ensures report { let known = replies_of_server C.meaning C.saving server script in
            IfOk result (λ files. report_of C.meaning C.saving files ≡ report_on known) }
    {
        let buffers = PieceBuffers::new(alloc)?;
        let report = Vec::with_capacity(alloc, script.len() * REPLY_BYTES)?;
        let run = SessionRun::new(server);
        Ok(SessionFiles {
            run,
            script,
            next: 0,
            frames: buffers.frames,
            wave: buffers.wave,
            report,
        })
    }

    /// The chip of the server that plays. It made the samples that the replies show.
    pub fn chip(&self) -> &C
        ensures made { C.total result.now ≡ (book_of self.now.run.server).made }
        ensures position { C.sample result.now ≡ (book_of self.now.run.server).position }
    {
        self.run.chip()
    }

    /// Whether all lines are answered and played.
    fn is_finished(&self) -> bool
        ensures finished { result ≡ is_finished self.now }
        ensures nothing { result ≡ true → (to_come_of C.meaning C.saving self.now).wave ≡ [] }
    {
        self.run.left() == 0 && self.next == self.script.len()
    }

    /// Plays the next frames of the last line.
    fn play_some(&mut self)
        requires some { 0 < self.old.run.left }
        requires room { length self.old.wave + max_played_bytes ≤ buffer_capacity }
        ensures { SessionGoesOn C.meaning C.saving self.old self.new }
    {
        self.run.play_some(&mut self.frames);
        put_played(&mut self.wave, &self.frames);
    }

    /// Answers the next line.
    fn answer_next(&mut self)
        requires played { self.old.run.left ≡ 0 }
        requires none { left_to_play C.meaning C.saving self.old.run ≡ [] }
        requires some { 0 < length self.old.lines }
        ensures { SessionGoesOn C.meaning C.saving self.old self.new }
    {
        let line = self.script.line(self.next);
        let reply = self.run.answer(line);
        put_line(&mut self.report, reply);
        self.next += 1;
    }

    /// Plays the next frames of the last line, or answers the next line.
    fn step(&mut self)
        requires more { is_finished self.old ≡ false }
        requires room { length self.old.wave + max_played_bytes ≤ buffer_capacity }
        ensures { SessionGoesOn C.meaning C.saving self.old self.new }
    {
        if self.run.left() > 0 {
            self.play_some();
        } else {
            self.answer_next();
        }
    }

    /// Goes on while there is room for more frames.
    fn follow_script(&mut self)
        requires { self.old.wave ≡ [] }
        ensures wave_to_come { (to_come_of C.meaning C.saving self.old).wave ≡ self.new.wave ++ (to_come_of C.meaning C.saving self.new).wave }
        ensures report { report_of C.meaning C.saving self.new ≡ report_of C.meaning C.saving self.old }
        ensures less_work { is_finished self.new ≡ false → work_of self.new < work_of self.old }
    {
        'lines: while !self.is_finished() && self.wave.has_room(PLAYED_BYTES) {
            self.step();
        }
    }
}

impl<C: Chip> Pieces for SessionFiles<C> {
    ghost held = { held_of };

    ghost to_come = { to_come_of C.meaning C.saving };

    ghost report = { report_of C.meaning C.saving };

    ghost is_done = { is_finished };

    ghost work = { work_of };

    fn make_next(&mut self) -> bool {
        self.wave.clear();
        self.follow_script();
        self.is_finished()
    }

    fn wave(&self) -> &[u8] {
        self.wave.as_slice()
    }

    fn trace(&self) -> &[u8] {
        &[]
    }

    fn report(&self) -> &[u8] {
        self.report.as_slice()
    }
}
