// The echo itself.
ghost use Rattle.std.specs.Prelude.{◌≡◌, ◌<◌, ◌≤◌, ◌+◌, ◌*◌, ◌%◌, true, false, length, map, take};
ghost use Rattle.echo_unit.specs.Window.{echo_window};
ghost use Rattle.echo_unit.specs.Echo.{first_echo, is_at_cell, cell_address, with_newest, after_reading, length_in_force, at_next_cell, echo_heard, next_echo, echo_memory, output_frame, feedback_pair};
ghost use Rattle.echo_unit.specs.Cells.{AreNeighbours, StandInLine, after_cells, with_cells};
ghost use Rattle.echo_unit.specs.Flg.{has_echo_writes};
ghost use Rattle.echo_unit.specs.EchoOverBatch.{pair_of, sent_of, echo_over_sums};

use crate::cell::{cell_address, cell_pair, put_cell};
use crate::filter::filtered_pair;
use crate::flg::has_echo_writes;
use crate::rows::{
    HeardRows, READ_SIZE, SILENT_FRAME, SumRows, feedback_row, filtered_row, frame_at, last_pairs,
    output_row, put_history,
};
use crate::volume::{feedback_word, output_frame};
use crate::{EchoRegs, Window};
use aram_core::{Aram, PAGE_BYTES};
use num_fix::{BATCH_SIZE, Frame};
use std::marker::Model;

/// The bytes of the buffer that one step of EDL adds.
const LENGTH_UNIT: u16 = 2048;

/// The fewest samples for which rendering by rows is faster than step by step.
const MIN_OF_ROWS: u8 = 16;

/// The echo between two steps.
#[derive(Clone, Copy, Debug)]
pub struct Echo {
    offset: u16,
    length: u16,
    history: [Frame; 8],
}

impl Model for Echo {
    ghost use Rattle.echo_unit.specs.Echo.{EchoState, is_at_cell};

    ghost Value = { EchoState };

    ghost use Rattle.std.specs.Prelude.{◌≡◌, true};

    ghost view = { λ e. record { offset = e.offset; length = e.length; history = e.history } };

    ghost invariant = { λ e. is_at_cell (record { offset = e.offset; length = e.length; history = e.history }) ≡ true };

    ghost inverse = { λ s. record { offset = s.offset; length = s.length; history = s.history } };
}

/// Drops the oldest pair and adds a newest.
fn push(history: &mut [Frame; 8], pair: Frame)
    ensures { history.new ≡ with_newest history.old pair }
{
    history.rotate_left(1);
    history[7] = pair;
}

/// Whether no cell of a batch is written before it is read: the buffer is longer than a cell, or nothing is written.
fn are_cells_apart(regs: &EchoRegs) -> bool
    ensures { result ≡ true → has_echo_writes regs.now.flg ≡ true → 0 < regs.now.edl % 16 }
{
    regs.edl % 16 != 0 || !has_echo_writes(regs.flg)
}

impl Echo {
    /// The echo before its first step: at its first cell, with silence before it.
    pub fn new() -> Self
        ensures { result ≡ first_echo }
    {
        Echo {
            offset: 0,
            length: 0,
            history: [SILENT_FRAME; 8],
        }
    }

    /// Reads the cell.
    #[tactic(auto, unfolding(crate::specs::Echo::after_reading))]
    fn read_cell(&mut self, regs: &EchoRegs, memory: &Aram)
        ensures { self.new ≡ after_reading self.old regs.now memory.now }
    {
        let pair = cell_pair(memory, cell_address(regs.esa, self.offset));
        push(&mut self.history, pair);
    }

    /// Moves to the next cell.
    #[tactic(auto, unfolding(crate::specs::Echo::at_next_cell))]
    fn advance(&mut self, edl: u8)
        ensures { self.new ≡ at_next_cell self.old edl }
    {
        self.length = self.length_in_force(edl);
        if self.length <= self.offset + 4 {
            self.offset = 0;
        } else {
            self.offset += 4;
        }
    }

    /// One step, once a sample: `main` has the main sums of the voices, and `echo` what they send to the echo.
    /// It reads a cell of the buffer, filters, writes the cell unless FLG forbids it, and gives the output frame.
    #[tactic(auto, unfolding(crate::specs::Echo::next_echo, crate::specs::Echo::echo_memory))]
    pub fn step(&mut self, memory: &mut Aram, regs: &EchoRegs, main: Frame, echo: Frame) -> Frame
        ensures state { self.new ≡ next_echo self.old regs.now memory.old }
        ensures memory { memory.new ≡ echo_memory self.old regs.now memory.old echo }
        ensures frame { result ≡ output_frame regs.now main (echo_heard self.old regs.now memory.old) }
    {
        let address = cell_address(regs.esa, self.offset);
        self.read_cell(regs, memory);
        let heard = filtered_pair(&self.history, &regs.fir);
        if has_echo_writes(regs.flg) {
            let left = feedback_word(echo.left, heard.left, regs.efb);
            let right = feedback_word(echo.right, heard.right, regs.efb);
            put_cell(memory, address, left, right);
        }
        self.advance(regs.edl);
        output_frame(regs, main, heard)
    }

    /// Goes to the place of another echo, with a history of its own.
    fn go_to(&mut self, place: &Echo, history: [Frame; 8])
        ensures { self.new ≡ record place.now { history = history } }
    {
        *self = Echo {
            offset: place.offset,
            length: place.length,
            history,
        };
    }

    /// The address of its cell.
    pub fn cell(&self, esa: u8) -> u16
        ensures { result ≡ cell_address esa self.now.offset }
    {
        cell_address(esa, self.offset)
    }

    /// Puts the pairs of the history into two rows.
    pub(crate) fn put_pairs(&self, left: &mut [i16; READ_SIZE], right: &mut [i16; READ_SIZE])
        ensures left { take 8 left.new ≡ map (λ pair. pair.left) self.now.history }
        ensures right { take 8 right.new ≡ map (λ pair. pair.right) self.now.history }
        ensures at_cell { is_at_cell self.now ≡ true }
        ensures eight { length self.now.history ≡ 8 }
    {
        put_history(&self.history, left, right);
    }

    /// The length of the buffer that the next step uses.
    fn length_in_force(&self, edl: u8) -> u16
        ensures value { result ≡ length_in_force edl self.now }
        ensures most { result ≤ 15 * 0x800 }
        ensures whole { result % 0x800 ≡ 0 }
        ensures within { self.now.offset < 15 * 0x800 }
        ensures inside { 0 < result → self.now.offset < result }
        ensures cell { self.now.offset % 4 ≡ 0 }
    {
        if self.offset == 0 {
            u16::from(edl % 16) * LENGTH_UNIT
        } else {
            self.length
        }
    }

    /// How many of the next cells, at most so many, stand one after another before the buffer's end. It may report fewer: no clause says how many.
    pub fn cells_in_line(&self, edl: u8, most: u8) -> u8
        ensures few { result ≤ most }
        ensures line { StandInLine edl result self.now }
    {
        let left = self.length_in_force(edl).saturating_sub(self.offset);
        u16::from(most).min(left / 4) as u8
    }

    /// How many of the next cells, at least one and at most so many, stand one after another in one page.
    pub(crate) fn neighbours(&self, edl: u8, most: u8) -> u8
        requires { 0 < most }
        ensures some { 0 < result }
        ensures few { result ≤ most }
        ensures neighbours { AreNeighbours edl result self.now }
    {
        // a buffer ends where a page does, and one of no length has one cell
        if self.length_in_force(edl) == 0 {
            return 1;
        }
        let in_page = (PAGE_BYTES - self.offset % PAGE_BYTES) / 4;
        u16::from(most).min(in_page) as u8
    }

    /// Goes over so many cells that stand one after another.
    pub(crate) fn skip(&mut self, edl: u8, cells: u8)
        requires some { 0 < cells }
        requires neighbours { AreNeighbours edl cells self.old }
        ensures { self.new ≡ after_cells self.old edl cells }
    {
        let length = self.length_in_force(edl);
        let end = self.offset + 4 * u16::from(cells);
        self.length = length;
        self.offset = if length <= end { 0 } else { end };
    }

    /// Writes what was sent and heard back into n cells.
    fn put_back(&self, n: u8, regs: &EchoRegs, sums: &SumRows, heard: &HeardRows, memory: &mut Aram)
        requires few { n ≤ BATCH_SIZE }
        ensures { memory.new ≡ with_cells self.now regs.now
            (λ j. feedback_pair (sent_of sums.now j) (pair_of heard.now.left heard.now.right j) regs.now.efb) memory.old n }
    {
        let left = feedback_row(&sums.sent_left, &heard.left, regs.efb);
        let right = feedback_row(&sums.sent_right, &heard.right, regs.efb);
        self.write_cells(n, regs, &left, &right, memory);
    }

    /// Writes what was sent and heard back into n cells, unless FLG forbids it.
    fn write_back(
        &self,
        n: u8,
        regs: &EchoRegs,
        sums: &SumRows,
        heard: &HeardRows,
        memory: &mut Aram,
    )
        requires few { n ≤ BATCH_SIZE }
        ensures on { has_echo_writes regs.now.flg ≡ true → memory.new ≡ with_cells self.now regs.now
            (λ j. feedback_pair (sent_of sums.now j) (pair_of heard.now.left heard.now.right j) regs.now.efb) memory.old n }
        ensures off { has_echo_writes regs.now.flg ≡ false → memory.new ≡ memory.old }
    {
        let writes_on = has_echo_writes(regs.flg);
        if writes_on {
            self.put_back(n, regs, sums, heard, memory);
        }
    }

    /// The samples of a batch by rows: all cells are read, then filtered, then written.
    fn play_rows(
        &mut self,
        n: u8,
        regs: &EchoRegs,
        sums: &SumRows,
        memory: &mut Aram,
    ) -> [Frame; BATCH_SIZE]
        requires few { n ≤ BATCH_SIZE }
        requires apart { has_echo_writes regs.now.flg ≡ true → 0 < regs.now.edl % 16 }
        ensures batch { echo_over_sums regs.now sums.now self.old memory.old n ≡ record { echo = self.new; memory = memory.new; frames = take n result } }
    {
        let mut left = [0; READ_SIZE];
        let mut right = [0; READ_SIZE];
        let next = self.read_cells(n, regs, memory, &mut left, &mut right);
        let heard = HeardRows {
            left: filtered_row(&left, &regs.fir),
            right: filtered_row(&right, &regs.fir),
        };
        self.write_back(n, regs, sums, &heard, memory);
        self.go_to(&next, last_pairs(&left, &right, n));
        output_row(regs, sums, &heard)
    }

    /// The samples of a batch one after another.
    fn play_each(
        &mut self,
        n: u8,
        regs: &EchoRegs,
        sums: &SumRows,
        memory: &mut Aram,
    ) -> [Frame; BATCH_SIZE]
        requires few { n ≤ BATCH_SIZE }
        ensures batch { echo_over_sums regs.now sums.now self.old memory.old n ≡ record { echo = self.new; memory = memory.new; frames = take n result } }
    {
        let mut frames = [SILENT_FRAME; BATCH_SIZE];
        for j in 0..n {
            let place = usize::from(j);
            let main = frame_at(&sums.main_left, &sums.main_right, place);
            let sent = frame_at(&sums.sent_left, &sums.sent_right, place);
            frames[place] = self.step(memory, regs, main, sent);
        }
        frames
    }

    /// The steps of n samples, at most 64, over the rows of the main sums and of what is sent to the echo. The first n frames of the
    /// result are those of the samples. A batch of few samples is made step by step, and so is one that writes to a buffer of a single cell (EDL 0).
    pub fn play(
        &mut self,
        n: u8,
        regs: &EchoRegs,
        sums: &SumRows,
        memory: &mut Aram,
    ) -> [Frame; BATCH_SIZE]
        requires few { n ≤ BATCH_SIZE }
        ensures batch { echo_over_sums regs.now sums.now self.old memory.old n ≡ record { echo = self.new; memory = memory.new; frames = take n result } }
    {
        if MIN_OF_ROWS <= n && are_cells_apart(regs) {
            self.play_rows(n, regs, sums, memory)
        } else {
            self.play_each(n, regs, sums, memory)
        }
    }

    /// Where the echo can stand in the next samples under these values of ESA and EDL.
    pub fn window(&self, esa: u8, edl: u8) -> Window
        ensures window { result ≡ echo_window esa edl self.now.length }
        ensures least { 4 ≤ result.len }
        ensures most { result.len ≤ 15 * 2048 }
    {
        let asked = u32::from(edl % 16) * LENGTH_UNIT as u32;
        Window {
            start: u16::from(esa) * PAGE_BYTES,
            len: u32::from(self.length).max(asked).max(4),
        }
    }
}
