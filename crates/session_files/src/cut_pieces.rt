// Cuts as the bytes of their sound file, and their report, over any chip.
ghost use Rattle.std.specs.Prelude.{◌≡◌, ◌+◌, ◌*◌, ◌<◌, ◌≤◌, ◌++◌, [], true, false, length, IfOk};
ghost use Rattle.wav_form.specs.Wave.{header_of, stereo_wave};
ghost use Rattle.cut_form.specs.Slices.{cut_frames, cut_samples};
ghost use Rattle.cut_form.specs.CutBook.{opened_book, cut_book, max_played_bytes, slots_for_cuts};
ghost use Rattle.cut_server.specs.Server.{pages_at, frames_to};
ghost use Rattle.cut_server.specs.ServerState.{book_of, slots_of};
ghost use Rattle.cut_form.specs.GrowingFrames.{AreOfRun};
ghost use Rattle.session_files.specs.CutFiles.{cuts_report, to_come_of, held_of, report_of, work_of};
ghost use Rattle.report_text.specs.Capacity.{buffer_capacity};

use crate::OutOfMemory;
use crate::cut_report::put_cut_report;
use crate::marking::mark_if_room;
use crate::played::{PieceBuffers, put_played};
use chip_form::Chip;
use command_runner::Pieces;
use cut_form::{MAX_PLAYED, PLAYED_BYTES};
use cut_server::CutServer;
use cut_text::CutList;
use report_text::FixedBuffer;
use std::alloc::Global;
use std::marker::Model;
use trace_form::Frames;

/// Cuts over any chip that are turned into the bytes of a sound file, and then into a report.
#[derive(Drop)]
pub struct CutFiles<C: Chip> {
    server: CutServer<C>,
    cuts: CutList,
    begun: usize,
    left: u32,
    frames: Frames,
    wave: FixedBuffer,
    is_done: bool,
    report: FixedBuffer,
}

impl<C: Chip> Model for CutFiles<C> {
    ghost use Rattle.session_files.specs.CutFiles.{CutFilesState, IsPlaying};

    ghost Value = { CutFilesState C.State C.Saved };

    ghost view = { λ f. record { server = f.server; cuts = f.cuts; begun = f.begun; left = f.left; wave = f.wave; is_done = f.is_done } };

    ghost invariant = { λ f. IsPlaying C.meaning C.saving
        (record { server = f.server; cuts = f.cuts; begun = f.begun; left = f.left; wave = f.wave; is_done = f.is_done }) f.report };
}

impl<C: Chip> CutFiles<C> {
    /// The files of cuts that a server has yet to play. All memory is allocated here, and no later call takes memory.
    pub fn open(
        alloc: Global,
        server: CutServer<C>,
        cuts: CutList,
    ) -> Result<CutFiles<C>, OutOfMemory>
        requires slots { slots_of server ≡ slots_for_cuts }
        requires run { AreOfRun (frames_to C.meaning C.saving server) }
        requires book { book_of server ≡ opened_book (pages_at C.meaning C.saving server) }
        ensures wave { IfOk result (λ files. header_of 2 (cut_samples cuts) ++ (to_come_of C.meaning C.saving files).wave
            ≡ stereo_wave (cut_frames (frames_to C.meaning C.saving server) cuts)) }
        ensures report { IfOk result (λ files. report_of C.meaning C.saving files ≡ cuts_report cuts (cut_book (pages_at C.meaning C.saving server) cuts)) }
    {
        let buffers = PieceBuffers::new(alloc)?;
        let report = FixedBuffer::new(alloc)?;
        Ok(CutFiles {
            server,
            cuts,
            begun: 0,
            left: 0,
            frames: buffers.frames,
            wave: buffers.wave,
            is_done: false,
            report,
        })
    }

    /// The chip of the server that plays. Once the last piece is made, the report shows the samples that it made.
    pub fn chip(&self) -> &C
        ensures made { C.total result.now ≡ (book_of self.now.server).made }
        ensures position { C.sample result.now ≡ (book_of self.now.server).position }
        ensures known { self.now.is_done ≡ true → report_of C.meaning C.saving self.now
            ≡ cuts_report self.now.cuts (record (book_of self.now.server) { made = C.total result.now }) }
    {
        self.server.chip()
    }

    /// Begins the next cut, if there is one: goes to it, and takes a checkpoint where there is room for it. Answers whether
    /// there is none.
    fn begin(&mut self) -> bool
        requires { self.old.left ≡ 0 }
        ensures wave_to_come { (to_come_of C.meaning C.saving self.new).wave ≡ (to_come_of C.meaning C.saving self.old).wave }
        ensures report { report_of C.meaning C.saving self.new ≡ report_of C.meaning C.saving self.old }
        ensures wave { self.new.wave ≡ self.old.wave }
        ensures done { result ≡ true → work_of self.new ≡ 0 }
        ensures less_work { result ≡ false → work_of self.new < work_of self.old }
    {
        let Some(cut) = self.cuts.as_slice().get(self.begun) else {
            return true;
        };
        let (start, count) = (cut.start, cut.count);
        self.server.seek(start);
        mark_if_room(&mut self.server);
        self.left = count;
        self.begun += 1;
        false
    }

    /// Plays the next frames of the cut that was begun, 64 at most, and adds their bytes.
    fn play(&mut self)
        requires some { 1 ≤ self.old.left }
        requires room { length self.old.wave + max_played_bytes ≤ buffer_capacity }
        ensures wave_to_come { self.old.wave ++ (to_come_of C.meaning C.saving self.old).wave ≡ self.new.wave ++ (to_come_of C.meaning C.saving self.new).wave }
        ensures report { report_of C.meaning C.saving self.new ≡ report_of C.meaning C.saving self.old }
        ensures less_work { work_of self.new < work_of self.old }
    {
        let most = self.left.min(MAX_PLAYED);
        self.server.play(most, &mut self.frames);
        put_played(&mut self.wave, &self.frames);
        self.left -= most;
    }

    /// Begins cuts and plays while there is room, and answers whether all are played.
    fn play_cuts(&mut self) -> bool
        requires { self.old.wave ≡ [] }
        ensures wave_to_come { (to_come_of C.meaning C.saving self.old).wave ≡ self.new.wave ++ (to_come_of C.meaning C.saving self.new).wave }
        ensures report { report_of C.meaning C.saving self.new ≡ report_of C.meaning C.saving self.old }
        ensures done { result ≡ true → work_of self.new ≡ 0 }
        ensures less_work { result ≡ false → work_of self.new < work_of self.old }
    {
        'pieces: loop {
            if self.left == 0 {
                if self.begin() {
                    return true;
                }
            } else {
                self.play();
                if !self.wave.has_room(PLAYED_BYTES) {
                    return false;
                }
            }
        }
    }

    /// Writes the report, once all cuts are played.
    fn put_report(&mut self)
        requires { work_of self.old ≡ 0 }
        ensures { self.new ≡ record self.old { is_done = true } }
    {
        put_cut_report(&mut self.report, &self.cuts, &self.server);
        self.is_done = true;
    }
}

impl<C: Chip> Pieces for CutFiles<C> {
    ghost held = { held_of };

    ghost to_come = { to_come_of C.meaning C.saving };

    ghost report = { report_of C.meaning C.saving };

    ghost is_done = { λ f. f.is_done };

    ghost work = { work_of };

    fn make_next(&mut self) -> bool {
        self.wave.clear();
        let done = self.play_cuts();
        self.is_done = false;
        if done {
            self.put_report();
        }
        done
    }

    fn wave(&self) -> &[u8] {
        self.wave.as_slice()
    }

    fn trace(&self) -> &[u8] {
        &[]
    }

    fn report(&self) -> &[u8] {
        self.report.as_slice()
    }
}
