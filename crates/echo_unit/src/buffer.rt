//! How the echo goes over the cells of its buffer in a batch: those that stand one after another in a page are read at once, and
//! written at once.

ghost use Rattle.std.specs.Prelude.{◌≡◌, ◌≤◌, ◌<◌, ◌+◌, ◌*◌, true, length, map, take, ℕ, List};
ghost use Rattle.echo_unit.specs.Cells.{AreNeighbours, after_cells, pairs_read, with_cells};
ghost use Rattle.echo_unit.specs.Echo.{EchoState, is_at_cell};
ghost use Rattle.echo_unit.specs.EchoOverBatch.{pair_of};

use crate::EchoRegs;
use crate::echo::Echo;
use crate::page::{pair_in, put_pair};
use crate::rows::READ_SIZE;
use aram_core::{Aram, PAGE_BYTES, PAGE_SIZE, page_of};
use num_fix::BATCH_SIZE;

impl Echo {
    /// Reads cells that stand one after another in one page, after the pairs of the history and those of so many cells before.
    fn read_neighbours(
        &self,
        before: u8,
        cells: u8,
        regs: &EchoRegs,
        memory: &Aram,
        left: &mut [i16; READ_SIZE],
        right: &mut [i16; READ_SIZE],
    )
        requires few { before + cells ≤ BATCH_SIZE }
        requires neighbours { AreNeighbours regs.now.edl cells self.now }
        ensures left { (s : EchoState) → self.now ≡ after_cells s regs.now.edl before
            → take (8 + before) left.old ≡ map (λ pair. pair.left) (pairs_read s regs.now memory.now before)
            → take (8 + (before + cells)) left.new ≡ map (λ pair. pair.left) (pairs_read s regs.now memory.now (before + cells)) }
        ensures right { (s : EchoState) → self.now ≡ after_cells s regs.now.edl before
            → take (8 + before) right.old ≡ map (λ pair. pair.right) (pairs_read s regs.now memory.now before)
            → take (8 + (before + cells)) right.new ≡ map (λ pair. pair.right) (pairs_read s regs.now memory.now (before + cells)) }
    {
        let address = self.cell(regs.esa);
        let page = memory.page(page_of(address));
        let at = usize::from(address % PAGE_BYTES);
        let from = 8 + usize::from(before);
        for i in 0..usize::from(cells) {
            let pair = pair_in(page, at + 4 * i);
            left[from + i] = pair.left;
            right[from + i] = pair.right;
        }
    }

    /// Reads n cells, after the pairs of the history, into a row for each side. The answer is the echo after these cells, with the
    /// history that it had.
    pub(crate) fn read_cells(
        &self,
        n: u8,
        regs: &EchoRegs,
        memory: &Aram,
        left: &mut [i16; READ_SIZE],
        right: &mut [i16; READ_SIZE],
    ) -> Echo
        requires few { n ≤ BATCH_SIZE }
        ensures echo { result ≡ after_cells self.now regs.now.edl n }
        ensures left { take (8 + n) left.new ≡ map (λ pair. pair.left) (pairs_read self.now regs.now memory.now n) }
        ensures right { take (8 + n) right.new ≡ map (λ pair. pair.right) (pairs_read self.now regs.now memory.now n) }
        ensures at_cell { is_at_cell self.now ≡ true }
        ensures eight { length self.now.history ≡ 8 }
    {
        self.put_pairs(left, right);
        let mut at = *self;
        let mut j = 0;
        'cells: while j < n {
            let cells = at.neighbours(regs.edl, n - j);
            at.read_neighbours(j, cells, regs, memory, left, right);
            at.skip(regs.edl, cells);
            j += cells;
        }
        at
    }

    /// Writes cells that stand one after another in one page, of two rows of words from a place on.
    fn write_neighbours(
        &self,
        before: u8,
        cells: u8,
        regs: &EchoRegs,
        left: &[i16; BATCH_SIZE],
        right: &[i16; BATCH_SIZE],
        memory: &mut Aram,
    )
        requires few { before + cells ≤ BATCH_SIZE }
        requires neighbours { AreNeighbours regs.now.edl cells self.now }
        ensures { (s : EchoState) (first : List ℕ) → self.now ≡ after_cells s regs.now.edl before
            → memory.old ≡ with_cells s regs.now (pair_of left.now right.now) first before
            → memory.new ≡ with_cells s regs.now (pair_of left.now right.now) first (before + cells) }
    {
        let address = self.cell(regs.esa);
        let page = page_of(address);
        let at = usize::from(address % PAGE_BYTES);
        let from = usize::from(before);
        let mut bytes = [0; PAGE_SIZE];
        bytes.copy_from_slice(memory.page(page));
        for i in 0..usize::from(cells) {
            put_pair(&mut bytes, at + 4 * i, left[from + i], right[from + i]);
        }
        memory.set_page(page, &bytes);
    }

    /// Writes n cells of two rows of words.
    pub(crate) fn write_cells(
        &self,
        n: u8,
        regs: &EchoRegs,
        left: &[i16; BATCH_SIZE],
        right: &[i16; BATCH_SIZE],
        memory: &mut Aram,
    )
        requires few { n ≤ BATCH_SIZE }
        ensures { memory.new ≡ with_cells self.now regs.now (pair_of left.now right.now) memory.old n }
    {
        let mut at = *self;
        let mut j = 0;
        'cells: while j < n {
            let cells = at.neighbours(regs.edl, n - j);
            at.write_neighbours(j, cells, regs, left, right, memory);
            at.skip(regs.edl, cells);
            j += cells;
        }
    }
}
