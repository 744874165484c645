//! The pages that the samples to come can read and write.

ghost use Rattle.std.specs.Prelude.{◌≡◌, ◌≤◌, ◌<◌, ◌+◌, ◌++◌, ℕ, List};
ghost use Rattle.std.specs.FinSet as set;
ghost use Rattle.arrayvec.specs.ArrayVec.{array_vec_len};
ghost use Rattle.aram_core.specs.Pages.{has_page};
ghost use Rattle.aram_core.specs.declared.aram.TheConstants.{MEMORY_SIZE};
ghost use Rattle.reach_map.specs.Reach.{window_pages};
ghost use Rattle.dsp_state.specs.Reach.{can_start, chip_reach, chip_window, entries_from, starts_from, voice_reads, voice_starts, voices_read};

use crate::registers::{DIR, EDL, ESA, FLG, SRCN, voice_register};
use crate::state::ChipState;
use aram_core::Aram;
use arrayvec::ArrayVec;
use chip_form::ReachPages;
use echo_unit::has_echo_writes;
use num_fix::has_bit;
use reach_map::{ChainStart, Window, bytes_have_page, chain_has_page, entry_has_page};
use voice_unit::{Voice, entry_address, loop_word, start_word};

/// Where eight voices can be: each at its block, or at the start of its sample.
type Starts = ArrayVec<ChainStart, 16>;

impl ChipState {
    /// The directory's entries of all voices.
    fn entries(&self) -> [u16; 8]
        ensures { result ≡ entries_from self.now.registers 0 self.now.hidden.voices }
    {
        let mut entries = [0; 8];
        for v in 0..8u8 {
            let srcn = voice_register(&self.registers, v, SRCN);
            entries[usize::from(v)] = entry_address(self.registers[DIR], srcn);
        }
        entries
    }

    /// Whether voice `v` can go to the start of its sample: its key on waits, or its delay after a key on is not over.
    pub fn can_start(&self, v: u8, voice: &Voice) -> bool
        requires { v < 8 }
        ensures { result ≡ can_start self.now v voice.now }
    {
        has_bit(self.hidden.kon_pending, v) || voice.delay() != 0
    }

    /// Adds where voice `v` can be.
    fn add_voice_starts(&self, starts: &mut Starts, memory: &Aram, v: u8, voice: &Voice)
        requires voice { v < 8 }
        requires room { array_vec_len starts.old + 2 ≤ 16 }
        ensures starts { starts.new.items ≡ starts.old.items ++ voice_starts self.now memory.now v voice.now }
        ensures count { array_vec_len starts.new ≤ array_vec_len starts.old + 2 }
    {
        let dir = self.registers[DIR];
        let srcn = voice_register(&self.registers, v, SRCN);
        let loop_word = loop_word(dir, srcn, memory);
        starts.push(ChainStart {
            block: voice.block(),
            loop_word,
        });
        if self.can_start(v, voice) {
            starts.push(ChainStart {
                block: start_word(dir, srcn, memory),
                loop_word,
            });
        }
    }

    /// Where the voices can be.
    fn starts(&self, memory: &Aram) -> Starts
        ensures { result.items ≡ starts_from self.now memory.now 0 self.now.hidden.voices }
    {
        let mut starts = ArrayVec::new();
        for v in 0..8u8 {
            let voice = &self.hidden.voices[usize::from(v)];
            self.add_voice_starts(&mut starts, memory, v, voice);
        }
        starts
    }

    /// Whether voice `v` can read bytes of a page in the next 64 samples.
    fn voice_reads(&self, memory: &Aram, v: u8, voice: &Voice, page: u8) -> bool
        requires { v < 8 }
        ensures { result ≡ voice_reads self.now memory.now v voice.now page }
    {
        let dir = self.registers[DIR];
        let srcn = voice_register(&self.registers, v, SRCN);
        if entry_has_page(entry_address(dir, srcn), page) {
            return true;
        }
        let loop_word = loop_word(dir, srcn, memory);
        let block = voice.block();
        if chain_has_page(memory, ChainStart { block, loop_word }, page) {
            return true;
        }
        if !self.can_start(v, voice) {
            return false;
        }
        let block = start_word(dir, srcn, memory);
        chain_has_page(memory, ChainStart { block, loop_word }, page)
    }

    /// Whether some voice can.
    fn voices_read(&self, memory: &Aram, page: u8) -> bool
        ensures { result ≡ voices_read self.now memory.now 0 self.now.hidden.voices page }
    {
        for v in 0..8u8 {
            let voice = &self.hidden.voices[usize::from(v)];
            if self.voice_reads(memory, v, voice, page) {
                return true;
            }
        }
        false
    }

    /// Where the echo can stand.
    fn window(&self) -> Window
        ensures window { result ≡ chip_window self.now }
        ensures some { 1 ≤ result.len }
        ensures most { result.len ≤ MEMORY_SIZE }
    {
        let echo = &self.hidden.echo;
        echo.window(self.registers[ESA], self.registers[EDL])
    }

    /// Whether the echo's window has bytes of a page.
    fn window_has_page(&self, page: u8) -> bool
        ensures { result ≡ has_page (window_pages (chip_window self.now)) page }
    {
        let window = self.window();
        bytes_have_page(window.start, window.len, page)
    }

    /// Whether the next 64 samples can write bytes of a page. Whatever is in memory, it is one of the window's.
    pub fn writes_page(&self, page: u8) -> bool
        ensures { (memory : List ℕ) → result ≡ set.contains (chip_reach self.now memory).write_pages page }
    {
        has_echo_writes(self.registers[FLG]) && self.window_has_page(page)
    }

    /// The window whose pages they can write: the echo's, or one of no bytes while the echo doesn't write.
    #[inline]
    #[tactic(auto, unfolding(crate::specs::Reach::chip_reach, reach_map::specs::Reach::reach))]
    pub fn written_window(&self) -> Window
        ensures { (memory : List ℕ) → (chip_reach self.now memory).write_pages ≡ set.from_list (window_pages result) }
    {
        if has_echo_writes(self.registers[FLG]) {
            self.window()
        } else {
            Window { start: 0, len: 0 }
        }
    }

    /// Whether they can read bytes of a page of a memory: of the window, of an entry or of a chain.
    pub fn reads_page(&self, memory: &Aram, page: u8) -> bool
        ensures { result ≡ set.contains (chip_reach self.now memory.now).read_pages page }
    {
        self.window_has_page(page) || self.voices_read(memory, page)
    }

    /// The reach over a memory.
    #[tactic(auto, unfolding(crate::specs::Reach::chip_reach))]
    pub fn reach(&self, memory: &Aram) -> ReachPages
        ensures { result ≡ chip_reach self.now memory.now }
    {
        let starts = self.starts(memory);
        let entries = self.entries();
        let window = self.window();
        let writes_on = has_echo_writes(self.registers[FLG]);
        reach_map::reach(memory, starts.as_slice(), &entries, window, writes_on)
    }
}
