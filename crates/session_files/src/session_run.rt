// A session on a server: each line is answered, and its frames are played piece by piece.
ghost use Rattle.std.specs.Prelude.{◌≡◌, ◌+◌, ◌^◌, ◌≤◌, ◌<◌, ◌++◌, [], length};
ghost use Rattle.num_fix.specs.Limits.{max_frames};
ghost use Rattle.cut_form.specs.declared.script.ScriptLine.TheVariants as lines;
ghost use Rattle.cut_form.specs.CutBook.{max_played};
ghost use Rattle.cut_server.specs.ServerState.{book_of, slots_of};
ghost use Rattle.cut_server.specs.Server.{frames_to, pages_at, KeepsTune};
ghost use Rattle.cut_text.specs.Playing.{IsWithinHour};
ghost use Rattle.cut_form.specs.GrowingFrames.{AreOfRun};
ghost use Rattle.session_files.specs.SessionRun.{SessionRunState, session_of, left_to_play, CanAnswer, Answers};

use chip_form::Chip;
use cut_form::{MAX_FRAMES, MAX_PLAYED, Reply, ScriptLine};
use cut_server::CutServer;
use std::marker::Model;
use trace_form::Frames;

/// A session on a server of cuts. No call takes memory.
#[derive(Drop)]
pub(crate) struct SessionRun<C: Chip> {
    server: CutServer<C>,
    frames: u32,
    left: u32,
}

impl<C: Chip> Model for SessionRun<C> {
    ghost use Rattle.session_files.specs.SessionRun.{SessionRunState, IsRunning};

    ghost Value = { SessionRunState C.State C.Saved };

    ghost view = { λ r. record { server = r.server; frames = r.frames; left = r.left } };

    ghost invariant = { λ r. IsRunning C.meaning C.saving r.server r.frames r.left };
}

impl<C: Chip> SessionRun<C> {
    /// A session at the opening of a server.
    pub(crate) fn new(server: CutServer<C>) -> SessionRun<C>
        requires run { AreOfRun (frames_to C.meaning C.saving server) }
        requires opened { (book_of server).position ≡ 0 }
        ensures { result ≡ record { server = server; frames = 0; left = 0 } }
    {
        SessionRun {
            server,
            frames: 0,
            left: 0,
        }
    }

    /// The chip of the server that plays.
    pub(crate) fn chip(&self) -> &C
        ensures made { C.total result.now ≡ (book_of self.now.server).made }
        ensures position { C.sample result.now ≡ (book_of self.now.server).position }
    {
        self.server.chip()
    }

    /// How many frames of the last line are still to be played.
    pub(crate) fn left(&self) -> u32
        ensures left { result ≡ self.now.left }
        ensures none { self.now.left ≡ 0 → left_to_play C.meaning C.saving self.now ≡ [] }
    {
        self.left
    }

    /// Answers a line that goes to a sample.
    fn seek(&mut self, at: u32) -> Reply
        requires ready { CanAnswer self.old }
        requires within { at ≤ max_frames }
        ensures { Answers C.meaning C.saving (lines.Seek at) self.old self.new result }
    {
        self.server.seek(at);
        Reply::At(at)
    }

    /// Answers a line that plays: its frames are still to be played then.
    fn play(&mut self, count: u32) -> Reply
        requires ready { CanAnswer self.old }
        requires within { count ≤ max_frames }
        ensures { Answers C.meaning C.saving (lines.Play count) self.old self.new result }
    {
        let at = self.server.at() + count;
        if at > MAX_FRAMES || self.frames + count > MAX_FRAMES {
            return Reply::Refused(count);
        }
        self.frames += count;
        self.left = count;
        Reply::Played { count, at }
    }

    /// Answers a line that marks.
    fn mark(&mut self) -> Reply
        requires { CanAnswer self.old }
        ensures { Answers C.meaning C.saving lines.Mark self.old self.new result }
    {
        let at = self.server.at();
        let marked = self.server.mark();
        Reply::AfterMark { at, marked }
    }

    /// Answers a line that drops the checkpoint at a sample.
    fn drop_at(&mut self, sample: u32) -> Reply
        requires { CanAnswer self.old }
        ensures { Answers C.meaning C.saving (lines.Drop sample) self.old self.new result }
    {
        if sample == 0 || !self.server.has(sample) {
            return Reply::NoneAt(sample);
        }
        self.server.drop_at(sample);
        Reply::Dropped(sample)
    }

    /// Answers a line that asks what is free.
    fn count_free(&self) -> Reply
        requires { CanAnswer self.now }
        ensures { Answers C.meaning C.saving lines.Free self.now self.now result }
    {
        Reply::Counted {
            free: self.server.free(),
            marks: self.server.count(),
            made: self.server.work(),
        }
    }

    /// Answers a line.
    pub(crate) fn answer(&mut self, line: ScriptLine) -> Reply
        requires ready { CanAnswer self.old }
        requires within { IsWithinHour line }
        ensures { Answers C.meaning C.saving line self.old self.new result }
    {
        match line {
            ScriptLine::Seek(at) => self.seek(at),
            ScriptLine::Play(count) => self.play(count),
            ScriptLine::Mark => self.mark(),
            ScriptLine::Drop(sample) => self.drop_at(sample),
            ScriptLine::Free => self.count_free(),
        }
    }

    /// Plays the next frames of the last line, up to 64.
    pub(crate) fn play_some(&mut self, frames: &mut Frames)
        requires some { 0 < self.old.left }
        requires counted { (session_of self.old).book.made < 2 ^ 64 }
        ensures frames { frames.new ++ left_to_play C.meaning C.saving self.new ≡ left_to_play C.meaning C.saving self.old }
        ensures session { session_of self.new ≡ session_of self.old }
        ensures tune { KeepsTune C.meaning C.saving self.old.server self.new.server }
        ensures less { self.new.left < self.old.left }
        ensures few { length frames.new ≤ max_played }
    {
        let most = self.left.min(MAX_PLAYED);
        self.server.play(most, frames);
        self.left -= most;
    }
}
