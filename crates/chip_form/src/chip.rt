// The sound chip that a bus is handed.
ghost use Rattle.std.specs.Prelude.{◌≡◌, ℕ, ◌+◌, ◌*◌, ◌≤◌, ◌==◌, List, true, length, if◌then◌else◌};
ghost use Rattle.std.specs.FinSet as set;
ghost use Rattle.aram_core.specs.Pages.{Pages};
ghost use Rattle.aram_core.specs.declared.window.Window.{Window};
ghost use Rattle.chip_form.specs.Samples.{samples, AddsSamples, count_after};
ghost use Rattle.chip_form.specs.ChipMeaning.{ChipMeaning};
ghost use Rattle.chip_form.specs.ChipSaving.{ChipSaving};
ghost use Rattle.chip_form.specs.ChipLaws.{IsLawfulChip};
ghost use Rattle.chip_form.specs.SavingLaws.{IsLawfulSaving};
ghost use Rattle.trace_form.specs.Capacities.{frame_capacity, record_capacity};
ghost use Rattle.chip_form.specs.Limits.{max_samples_of_batch, max_samples_of_chip};

use aram_core::{Aram, Window};
use trace_form::{Frames, Records};

/// A sound chip: registers, and samples over a memory. Nothing here makes a chip or copies one, so what a bus emits comes
/// from the one that it was handed.
pub trait Chip: Drop {
    /// What the chip is, beside its numbers.
    type State;

    /// What is saved of one, with the number of its next sample.
    type Saved: Copy;

    /// The state of the chip.
    ghost state: { Self → Self.State };

    /// The number of the next sample.
    ghost sample: { Self → ℕ };

    /// The number of batches made.
    ghost batches: { Self → ℕ };

    /// The number of samples made in all, those before a load too.
    ghost total: { Self → ℕ };

    /// The functions on states by which the calls answer and act.
    ghost meaning: { ChipMeaning Self.State };

    /// And those by which they save and load.
    ghost saving: { ChipSaving Self.State Self.Saved };

    /// The pages that samples can write, by the window that the chip names for them.
    ghost written_pages: { Window → Pages };

    /// The register at an address. A bus asks for those from 00h to 7Fh alone.
    fn reg_read(&self, addr: u8) -> u8
        ensures { result ≡ meaning.register_read (state self.now) addr };

    /// Writes the register at an address. A bus writes those from 00h to 7Fh alone.
    fn reg_write(&mut self, addr: u8, value: u8)
        ensures state { state self.new ≡ meaning.register_write (state self.old) addr value }
        ensures sample { sample self.new ≡ sample self.old }
        ensures batches { batches self.new ≡ batches self.old }
        ensures total { total self.new ≡ total self.old };

    /// Whether samples write the register at an address: whether it is a result of theirs.
    fn is_result(&self, addr: u8) -> bool
        ensures { result ≡ meaning.is_result addr };

    /// Makes the next n samples, at most 64, as one batch, and adds their frames and the records of the voices in the mask; bit v of
    /// the mask is voice v. No samples are no batch.
    fn advance(
        &mut self,
        n: u8,
        memory: &mut Aram,
        mask: u8,
        frames: &mut Frames,
        records: &mut Records,
    )
        requires few { n ≤ max_samples_of_batch }
        requires frame_capacity { length frames.old + n ≤ frame_capacity }
        requires record_capacity { length records.old + 8 * n ≤ record_capacity }
        requires number { sample self.old + n ≤ max_samples_of_chip }
        ensures made { let made = samples meaning.one_sample n (sample self.old) (state self.old) memory.old in
            AddsSamples mask made (state self.new) memory.new frames.old frames.new records.old records.new }
        ensures sample { sample self.new ≡ sample self.old + n }
        ensures batches { batches self.new ≡ (if n == 0 then batches self.old else count_after (batches self.old) 1) }
        ensures total { total self.new ≡ count_after (total self.old) n };

    /// Whether the next 64 samples can write bytes of a page.
    fn writes_page(&self, memory: &Aram, page: u8) -> bool
        ensures { result ≡ set.contains (meaning.reach (state self.now) memory.now).write_pages page };

    /// The window in which the next 64 samples can write, whatever is in memory. As long as it is the same, so are the pages that
    /// they can write.
    fn written_window(&self) -> Window
        ensures { (memory : List ℕ) → (meaning.reach (state self.now) memory).write_pages ≡ written_pages result };

    /// Whether they can read bytes of a page.
    fn reads_page(&self, memory: &Aram, page: u8) -> bool
        ensures { result ≡ set.contains (meaning.reach (state self.now) memory.now).read_pages page };

    /// Whether their reach is entangled, as where they can write what later ones read.
    fn is_entangled(&self, memory: &Aram) -> bool
        ensures { result ≡ (meaning.reach (state self.now) memory.now).entangled };

    /// The number of batches made, each by an `advance` of at least one sample. It stays at its type's end.
    fn batches(&self) -> u64
        ensures { result ≡ batches self.now };

    /// The number of samples made in all, those before a load too. It stays at its type's end.
    fn total(&self) -> u64
        ensures { result ≡ total self.now };

    /// Saves the chip but for its fixed part, which no call and no sample changes.
    fn save(&self) -> Self::Saved
        ensures { result ≡ saving.saved (state self.now) (sample self.now) };

    /// Puts back what was saved, of this chip or of another one. The fixed part stays, and so do the numbers of batches and
    /// samples made in all.
    fn load(&mut self, saved: &Self::Saved)
        ensures state { state self.new ≡ saving.loaded (state self.old) saved.now }
        ensures sample { sample self.new ≡ saving.number saved.now }
        ensures batches { batches self.new ≡ batches self.old }
        ensures total { total self.new ≡ total self.old }
        ensures is_valid { meaning.is_valid (state self.new) ≡ true };

    /// The number of the next sample: of those made, and with a load of those made before what was saved.
    fn sample(&self) -> u32
        ensures number { result ≡ sample self.now }
        ensures is_valid { meaning.is_valid (state self.now) ≡ true };

    ghost lawful: { IsLawfulChip meaning };

    ghost saves_lawfully: { IsLawfulSaving meaning saving };
}
