// A player.
ghost use Rattle.std.specs.Prelude.{◌≡◌, ◌+◌, ◌-◌, ◌^◌, ◌≤◌, ◌<◌, ◌++◌, ◌==◌, min, length, take, drop, map, IfOk};
ghost use Rattle.num_fix.specs.Limits.{max_frames};
ghost use Rattle.chip_form.specs.Samples.{count_after};
ghost use Rattle.cut_form.specs.Checkpoints.{slots_free};
ghost use Rattle.cut_form.specs.CutBook.{after_play, counted_book};
ghost use Rattle.cut_form.specs.Slices.{slice_of};
ghost use Rattle.cut_form.specs.GrowingFrames.{AreOfRun};
ghost use Rattle.cut_server.specs.Server.{frames_to, KeepsTune};
ghost use Rattle.cut_server.specs.ServerState.{book_of};
ghost use Rattle.spc_form.specs.Tags.{field_size, length_of, text_of, has_tags, max_length_of_tags};
ghost use Rattle.player.specs.Output.{stereo, with_text};
ghost use Rattle.player.specs.OwnMarks.{max_mark_seconds, spacing_of, with_own_mark};
ghost use Rattle.player.specs.Player.{frames_of, memory_of, position_of, chip_here, marks_of, pool_capacity, marking, marks_played, made_of};
ghost use Rattle.player.specs.Player.{frames_sought, sought_some, SeekIsNear, faded_frames_played, opening_of, IsOver, IsRestarted, KeepsPlayer};

use crate::output::{StereoFrame, fade_frames, put_frames, put_text};
use crate::own_marks::{MAX_AT_ONCE, frames_at_once, is_own_mark};
use chip_form::Chip;
use cut_form::{MAX_FRAMES, Marked};
use cut_server::CutServer;
use num_fix::{Frame, SAMPLE_RATE};
use spc_form::{Length, SpcFile, Tag};
use std::marker::Model;

/// A player of a tune over a chip. Its frames are those of one run until `restart` begins another, whatever was played, sought or marked
/// before. It takes no memory: its server and its file have theirs.
#[derive(Drop)]
pub struct Player<C: Chip> {
    server: CutServer<C>,
    file: SpcFile,
    spacing: u32,
    end: Length,
    frames: [Frame; MAX_AT_ONCE],
}

impl<C: Chip> Model for Player<C> {
    ghost use Rattle.std.specs.Prelude.{◌≡◌, ◌≤◌, length};
    ghost use Rattle.num_fix.specs.Limits.{max_frames};
    ghost use Rattle.player.specs.Player.{PlayerState};
    ghost use Rattle.player.specs.declared.own_marks.TheConstants.{MAX_AT_ONCE};

    ghost Value = { PlayerState C.State C.Saved };

    ghost view = { λ p. record { server = p.server; file = p.file; spacing = p.spacing; end = p.end } };

    ghost invariant = { λ p. (length p.frames ≡ MAX_AT_ONCE) × (p.end.frames ≤ max_frames) × (p.end.fade ≤ p.end.frames) };
}

/// Plays so many frames through a buffer, and puts them into others from a place on.
fn play_through<C: Chip>(
    server: &mut CutServer<C>,
    buffer: &mut [Frame],
    count: usize,
    out: &mut [StereoFrame],
    from: usize,
)
    requires room { count ≤ length buffer.old }
    requires within { from + count ≤ length out.old }
    requires hour { (book_of server.old).position + count ≤ max_frames }
    ensures frames { let played = slice_of (frames_to C.meaning C.saving server.old) (book_of server.old).position count in
        out.new ≡ take from out.old ++ map stereo played ++ drop (from + count) out.old }
    ensures book { book_of server.new ≡ counted_book (after_play (book_of server.old) count) }
    ensures tune { KeepsTune C.meaning C.saving server.old server.new }
{
    server.play_into(&mut buffer[..count]);
    put_frames(&buffer[..count], out, from);
}

impl<C: Chip> Player<C> {
    /// A player over a server of a file's cuts, where that stands, with its marks and over its chip. It takes a mark by itself each so many
    /// seconds, at most 3,600; none at 0.
    pub fn over(server: CutServer<C>, file: SpcFile, mark_seconds: u32) -> Player<C>
        requires { mark_seconds ≤ max_mark_seconds }
        ensures over { IsOver server file (spacing_of mark_seconds) result }
    {
        let end = file.length();
        Player {
            server,
            file,
            spacing: SAMPLE_RATE * mark_seconds,
            end,
            frames: [Frame::default(); MAX_AT_ONCE],
        }
    }

    /// The length by the tags of the file, and how many of its last frames fade out, in frames, of which 32,000 are a second; three
    /// minutes without a fade where the tags give none. Frames can be played behind it.
    pub fn length(&self) -> Length
        ensures length { result ≡ length_of self.now.file }
        ensures most { result.frames ≤ max_length_of_tags }
        ensures fade_within { result.fade ≤ result.frames }
    {
        self.file.length()
    }

    /// The length to which `play_faded` plays, and how many of its last frames fade out: those of the tags, until `set_end` sets others.
    pub fn end(&self) -> Length
        ensures end { result ≡ self.now.end }
        ensures hour { result.frames ≤ max_frames }
        ensures fade_within { result.fade ≤ result.frames }
    {
        self.end
    }

    /// Has `play_faded` play to another length, at most an hour, and fade out so many of its last frames.
    pub fn set_end(&mut self, end: Length)
        requires hour { end.frames ≤ max_frames }
        requires fade_within { end.fade ≤ end.frames }
        ensures { self.new ≡ record self.old { end = end } }
    {
        self.end = end;
    }

    /// Whether the file says that it has tags.
    pub fn is_tagged(&self) -> bool
        ensures { result ≡ has_tags self.now.file }
    {
        self.file.is_tagged()
    }

    /// Writes the text of a tag, whatever its bytes are, as much as there is room for, and a zero byte; returns the whole text's length.
    pub fn tag(&self, tag: Tag, out: &mut [u8]) -> usize
        ensures text { out.new ≡ with_text (text_of self.now.file tag) out.old }
        ensures length { result ≡ length (text_of self.now.file tag) }
        ensures short { result ≤ field_size tag }
    {
        let text = self.file.text(tag);
        put_text(text, out);
        text.len()
    }

    /// The position: how many frames stand before it.
    pub fn position(&self) -> u32
        ensures position { result ≡ position_of self.now }
        ensures within { result ≤ max_frames }
        ensures run { AreOfRun (frames_of C.meaning C.saving self.now) }
        ensures counted { made_of self.now < 2 ^ 64 }
    {
        let _made = self.server.work();
        self.server.at()
    }

    /// How many pages are free for marks.
    pub fn free_pages(&self) -> u32
        ensures { result ≡ slots_free (pool_capacity self.now) (marks_of self.now) }
    {
        self.server.free()
    }

    /// The frames that seeks and plays made in all. It stays at its type's end.
    pub fn made(&self) -> u64
        ensures { result ≡ made_of self.now }
    {
        self.server.work()
    }

    /// The chip that plays. It made the frames that `made` returns, its next sample is that at the position, and its state is that of the
    /// run's there.
    pub fn chip(&self) -> &C
        ensures made { C.total result.now ≡ made_of self.now }
        ensures position { C.sample result.now ≡ position_of self.now }
        ensures state { C.state result.now ≡ chip_here C.meaning C.saving self.now }
    {
        self.server.chip()
    }

    /// Goes to a frame, at most an hour: from the position, or from the last mark up to it. It makes at most the frames from any mark up
    /// to it.
    pub fn seek(&mut self, at: u32)
        requires { at ≤ max_frames }
        ensures position { position_of self.new ≡ at }
        ensures marks { marks_of self.new ≡ marks_of self.old }
        ensures made { made_of self.new ≡ count_after (made_of self.old) (frames_sought self.old at) }
        ensures near { SeekIsNear self.old self.new at }
        ensures tune { KeepsPlayer C.meaning C.saving self.old self.new }
    {
        self.server.seek(at);
    }

    /// Goes towards a frame, at most an hour, and makes at most so many frames for it; returns whether it is there. So many fewer are left then:
    /// called again until it is there, it makes as many as one seek.
    pub fn seek_some(&mut self, at: u32, most: u32) -> bool
        requires { at ≤ max_frames }
        ensures position { position_of self.new ≡ sought_some self.old at most }
        ensures there { result ≡ (position_of self.new == at) }
        ensures marks { marks_of self.new ≡ marks_of self.old }
        ensures made { made_of self.new ≡ count_after (made_of self.old) (min most (frames_sought self.old at)) }
        ensures left { frames_sought self.new at ≡ frames_sought self.old at - most }
        ensures tune { KeepsPlayer C.meaning C.saving self.old self.new }
    {
        let goal = at.min(self.server.runs_from(at).saturating_add(most));
        self.server.seek(goal);
        goal == at
    }

    /// What is saved of the chip at the opening.
    pub fn opening_chip(&self) -> C::Saved
        ensures { result ≡ C.saving.saved (opening_of C.meaning C.saving self.now).1.chip 0 }
    {
        self.server.opening_chip()
    }

    /// Begins the tune anew over another chip at its opening, of which this was saved before its sample 0, and goes to where it stood. Only the
    /// mark of frame 0 is left.
    pub fn restart(&mut self, chip: C::Saved)
        requires { C.saving.number chip ≡ 0 }
        ensures { IsRestarted C.meaning C.saving chip self.old self.new }
    {
        let here = self.server.at();
        self.server.restart(chip);
        self.server.seek(here);
    }

    /// Takes a mark at the position, unless one stands there: a later seek to it, or to a frame soon after it, runs from it. There are 64
    /// at most; as long as there is no room for it, that which was taken first is given up, but never that of frame 0.
    pub fn mark(&mut self) -> Marked
        ensures marks { marks_of self.new ≡ (marking C.meaning C.saving self.old).live }
        ensures answer { result ≡ (marking C.meaning C.saving self.old).marked }
        ensures position { position_of self.new ≡ position_of self.old }
        ensures made { made_of self.new ≡ made_of self.old }
        ensures tune { KeepsPlayer C.meaning C.saving self.old self.new }
    {
        self.server.mark()
    }

    /// Takes a mark by itself, where one is due at the position.
    fn take_own_mark(&mut self)
        ensures marks { let pages = memory_of C.meaning C.saving self.old in
            marks_of self.new ≡ with_own_mark (pool_capacity self.old) pages self.old.spacing (position_of self.old) (marks_of self.old) }
        ensures position { position_of self.new ≡ position_of self.old }
        ensures made { made_of self.new ≡ made_of self.old }
        ensures tune { KeepsPlayer C.meaning C.saving self.old self.new }
    {
        if is_own_mark(self.spacing, self.server.at()) {
            self.mark();
        }
    }

    /// Plays the next frames, at most 1,024 and not past the next mark of its own, into others from a place on, but not past an end; shows
    /// how many.
    fn play_some(&mut self, out: &mut [StereoFrame], from: usize, end: usize) -> usize
        requires some { from < end }
        requires within { end ≤ length out.old }
        requires hour { position_of self.old + (end - from) ≤ max_frames }
        ensures some { 0 < result }
        ensures within { result ≤ end - from }
        ensures frames { let played = slice_of (frames_of C.meaning C.saving self.old) (position_of self.old) result in
            out.new ≡ take from out.old ++ map stereo played ++ drop (from + result) out.old }
        ensures position { position_of self.new ≡ position_of self.old + result }
        ensures marks { marks_of self.new ≡ marks_played C.meaning C.saving self.old result }
        ensures made { made_of self.new ≡ count_after (made_of self.old) result }
        ensures tune { KeepsPlayer C.meaning C.saving self.old self.new }
    {
        let most = (end - from).min(frames_at_once(self.spacing, self.server.at()));
        play_through(&mut self.server, &mut self.frames, most, out, from);
        self.take_own_mark();
        most
    }

    /// Plays the next frames, as many as there is room for, but not past an hour; returns how many. Wherever the position comes to a multiple
    /// of the seconds that it was opened with, it takes a mark.
    pub fn play(&mut self, out: &mut [StereoFrame]) -> usize
        ensures count { result ≡ min (length out.old) (max_frames - position_of self.old) }
        ensures frames { out.new ≡ map stereo (slice_of (frames_of C.meaning C.saving self.old) (position_of self.old) result) ++ drop result out.old }
        ensures position { position_of self.new ≡ position_of self.old + result }
        ensures marks { marks_of self.new ≡ marks_played C.meaning C.saving self.old result }
        ensures made { made_of self.new ≡ count_after (made_of self.old) result }
        ensures tune { KeepsPlayer C.meaning C.saving self.old self.new }
    {
        let count = out.len().min((MAX_FRAMES - self.position()) as usize);
        let mut done = 0;
        'pieces: while done < count {
            done += self.play_some(out, done, count);
        }
        count
    }

    /// Plays the next frames of a render, which is as long as the end says and fades as it says; returns how many.
    pub fn play_faded(&mut self, out: &mut [StereoFrame]) -> usize
        ensures count { result ≡ min (length out.old) (self.old.end.frames - position_of self.old) }
        ensures frames { out.new ≡ map stereo (faded_frames_played C.meaning C.saving self.old result) ++ drop result out.old }
        ensures position { position_of self.new ≡ position_of self.old + result }
        ensures marks { marks_of self.new ≡ marks_played C.meaning C.saving self.old result }
        ensures made { made_of self.new ≡ count_after (made_of self.old) result }
        ensures tune { KeepsPlayer C.meaning C.saving self.old self.new }
    {
        let whole = self.end();
        let at = self.position();
        let count = out.len().min(whole.frames.saturating_sub(at) as usize);
        self.play(&mut out[..count]);
        fade_frames(&mut out[..count], at, whole);
        count
    }
}
