//! The chip.

ghost use Rattle.std.specs.Prelude.{◌≡◌, ◌≤◌, ◌<◌, ◌+◌, ◌*◌, ◌==◌, true, false, length, IfOk, if◌then◌else◌, ℕ, List};
ghost use Rattle.std.specs.FinSet as set;
ghost use Rattle.trace_form.specs.Capacities.{frame_capacity, record_capacity};
ghost use Rattle.chip_form.specs.Limits.{max_samples_of_chip, max_samples_of_batch};
ghost use Rattle.chip_form.specs.Samples.{AddsSamples, count_after};
ghost use Rattle.dsp_state.specs.Settings.{settings_of};
ghost use Rattle.dsp_state.specs.Outside.{opened_state, register_read, register_write};
ghost use Rattle.dsp_state.specs.Valid.{is_valid};
ghost use Rattle.dsp_state.specs.Reach.{chip_reach};
ghost use Rattle.reach_map.specs.Reach.{window_pages};
ghost use Rattle.batch_rows.specs.AddsFrames.{AddsFrames};
ghost use Rattle.batch_rows.specs.Apart.{VoicesReadTheSame};
ghost use Rattle.dsp_core.specs.Next.{next_sample, next_samples};
ghost use Rattle.dsp_core.specs.Outputs.{HasRoomFor, AddsSamplesTo, AddsSampleTo, AreSame};
ghost use Rattle.dsp_core.specs.Saved.{saved_state, loaded_state};

use crate::OutOfMemory;
use crate::sample::make_sample;
use crate::saved::DspState;
use aram_core::{Aram, Window};
use batch_rows::{
    BatchSamples, PlayedBatch, is_echo_apart, is_echo_surely_apart, play_batch, push_records,
    samples_apart,
};
use dsp_state::registers::{ENDX, KON};
use dsp_state::{ChipState, Hidden, Settings, settings_of};
use echo_unit::Echo;
use gauss_table::GaussTable;
use rate_clock::{Noise, RateClock};
use std::alloc::Global;
use std::marker::Model;
use trace_form::{Frames, Records};
use voice_batch::Workspace;
use voice_unit::{UNHEARD, Voice, VoiceOut};

/// The fewest samples for which rows pay.
const MIN_ROWS: u8 = 3;

/// How many samples are made one by one before it is looked again whether rows may be.
const ONE_BY_ONE: u8 = 4;

/// The S-DSP: 32,000 samples a second of sound, made in batches. Beside the chip's state it keeps what it works with, of which views and saved
/// states see nothing: what it read of its registers, the places of its voices, and the blocks that were decoded.
#[derive(Drop)]
pub struct Dsp {
    state: ChipState,
    clock: RateClock,
    number: u32,
    batches: u64,
    total: u64,
    settings: Settings,
    /// The settings are those of the registers still.
    fresh: bool,
    work: Workspace,
    made: PlayedBatch,
}

impl Model for Dsp {
    ghost use Rattle.dsp_core.specs.Chip.{DspView};

    ghost Value = { DspView };

    ghost use Rattle.dsp_core.specs.Inside.{IsDsp};

    ghost view = { λ d. record { state = d.state; sample = d.number; batches = d.batches; total = d.total } };

    ghost invariant = { IsDsp };
}

/// Reads again what samples read of the registers, where a register was written or a state was put back since. It stays where it is, so that
/// samples read it there.
fn renew(settings: &mut Settings, fresh: &mut bool, state: &ChipState)
    requires { fresh.old ≡ true → settings.old ≡ settings_of state.now.registers state.now.muted }
    ensures { settings.new ≡ settings_of state.now.registers state.now.muted }
{
    if !*fresh {
        *settings = settings_of(&state.registers, state.muted);
        *fresh = true;
    }
}

/// What samples add to: the frames, and the records of the voices in the mask; bit v of the mask is voice v.
#[derive(Drop)]
struct Outputs<'a> {
    mask: u8,
    frames: &'a mut Frames,
    records: &'a mut Records,
}

impl Dsp {
    /// The chip with its registers as a file has them, 128 bytes, a table of weights and the muted voices, before its first sample;
    /// bit v of the muted voices is voice v.
    #[tactic(auto, unfolding(dsp_state::specs::Outside::opened_state))]
    pub fn open(
        alloc: Global,
        registers: &[u8],
        table: GaussTable,
        muted: u8,
    ) -> Result<Dsp, OutOfMemory>
        requires { length registers.now ≡ 0x80 }
        ensures { IfOk result (λ dsp. dsp ≡ record { state = opened_state registers.now table muted; sample = 0; batches = 0; total = 0 }) }
    {
        let work = Workspace::new(alloc, &table)?;
        let mut own = [0; 128];
        own.copy_from_slice(registers);
        let hidden = Hidden {
            kon_pending: own[KON],
            kon_latched: 0,
            noise: Noise::new(),
            voices: [Voice::new(); 8],
            echo: Echo::new(),
        };
        let settings = settings_of(&own, muted);
        Ok(Dsp {
            state: ChipState {
                registers: own,
                hidden,
                table,
                muted,
            },
            clock: RateClock::new(),
            number: 0,
            batches: 0,
            total: 0,
            settings,
            fresh: true,
            work,
            made: PlayedBatch::new(),
        })
    }

    /// The register at an address, taken modulo 128.
    #[tactic(auto, unfolding(dsp_state::specs::Outside::register_read))]
    pub fn reg_read(&self, addr: u8) -> u8
        ensures { result ≡ register_read self.now.state addr }
    {
        self.state.registers[usize::from(addr % 0x80)]
    }

    /// Writes a register. Any byte clears ENDX, and a write of KON makes its key-ons pending until the next
    /// poll, in place of those that were. From 80h on a write has no effect.
    #[tactic(auto, unfolding(dsp_state::specs::Outside::register_write))]
    pub fn reg_write(&mut self, addr: u8, value: u8)
        ensures { self.new ≡ record self.old { state = register_write self.old.state addr value } }
    {
        if addr >= 0x80 {
            return;
        }
        self.fresh = false;
        let place = usize::from(addr);
        self.state.registers[place] = if place == ENDX { 0 } else { value };
        if place == KON {
            self.state.hidden.kon_pending = value;
        }
    }

    /// Makes the next sample, with the answers of its voices.
    fn make_one(&mut self, memory: &mut Aram, outputs: &mut Outputs, answers: &mut [VoiceOut; 8])
        requires room { HasRoomFor 1 outputs.old }
        requires number { self.old.sample < max_samples_of_chip }
        ensures made { AddsSampleTo (next_sample self.old memory.old) self.new.state memory.new outputs.old outputs.new }
        ensures chip { self.new ≡ record self.old { state = self.new.state; sample = self.old.sample + 1 } }
        ensures same { AreSame outputs.old outputs.new }
        ensures record_count { length outputs.new.records.now ≤ length outputs.old.records.now + 8 }
    {
        renew(&mut self.settings, &mut self.fresh, &self.state);
        self.clock.step();
        let frame = make_sample(
            &mut self.state,
            self.number,
            &self.clock,
            &self.settings,
            memory,
            answers,
        );
        push_records(outputs.records, outputs.mask, self.number, answers);
        outputs.frames.push(frame);
        self.number += 1;
    }

    /// Makes the next n samples one after another, and adds them to the outputs.
    fn make_each(&mut self, n: u8, memory: &mut Aram, outputs: &mut Outputs)
        requires room { HasRoomFor n outputs.old }
        requires number { self.old.sample + n ≤ max_samples_of_chip }
        ensures made { AddsSamplesTo (next_samples n self.old memory.old) self.new.state memory.new outputs.old outputs.new }
        ensures same { AreSame outputs.old outputs.new }
        ensures chip { self.new ≡ record self.old { state = self.new.state; sample = self.old.sample + n } }
    {
        let mut answers = [UNHEARD; 8];
        'samples: for _ in 0..n {
            self.make_one(memory, outputs, &mut answers);
        }
    }

    /// Makes the next n samples by rows, and adds their frames.
    fn make_rows(&mut self, n: u8, memory: &mut Aram, frames: &mut Frames)
        requires some { 0 < n }
        requires few { n ≤ max_samples_of_batch }
        requires frame_capacity { length frames.old + n ≤ frame_capacity }
        requires number { self.old.sample + n ≤ max_samples_of_chip }
        requires apart { VoicesReadTheSame n self.old.sample self.old.state memory.old }
        ensures made { AddsFrames (next_samples n self.old memory.old) self.new.state memory.new frames.old frames.new }
        ensures chip { self.new ≡ record self.old { state = self.new.state; sample = self.old.sample + n } }
    {
        renew(&mut self.settings, &mut self.fresh, &self.state);
        let samples = BatchSamples::after(&self.clock, self.number, n);
        play_batch(
            &mut self.state,
            &samples,
            &self.settings,
            memory,
            &mut self.work,
            &mut self.made,
            frames,
        );
        self.clock = self.clock.after_samples(n);
        self.number += u32::from(n);
    }

    /// How many of the next n samples may be made by rows: where a conservative test shows that the echo can't write what the voices read all
    /// of them, and else those that write nothing which a voice reads in them. None where it doesn't pay, as for one or two samples. Fewer
    /// may be reported: no clause says how many, and one by one the samples are the same.
    fn samples_by_rows(&self, n: u8, memory: &Aram) -> u8
        requires { n ≤ max_samples_of_batch }
        ensures few { result ≤ n }
        ensures same { VoicesReadTheSame result self.now.sample self.now.state memory.now }
    {
        if n < MIN_ROWS {
            return 0;
        }
        let surely = is_echo_surely_apart(&self.state, memory);
        if surely {
            return n;
        }
        let apart = samples_apart(&self.state, memory, n);
        if apart < MIN_ROWS {
            return 0;
        }
        apart
    }

    /// Makes some of the next n samples, by rows where no records are wanted, or a few one by one, and adds them to the outputs.
    /// The answer is how many.
    fn make_some(&mut self, n: u8, memory: &mut Aram, outputs: &mut Outputs) -> u8
        requires some { 0 < n }
        requires few { n ≤ max_samples_of_batch }
        requires room { HasRoomFor n outputs.old }
        requires number { self.old.sample + n ≤ max_samples_of_chip }
        ensures some { 0 < result }
        ensures few { result ≤ n }
        ensures made { AddsSamplesTo (next_samples result self.old memory.old) self.new.state memory.new outputs.old outputs.new }
        ensures same { AreSame outputs.old outputs.new }
        ensures chip { self.new ≡ record self.old { state = self.new.state; sample = self.old.sample + result } }
    {
        if outputs.mask == 0 {
            let rows = self.samples_by_rows(n, memory);
            if rows > 0 {
                self.make_rows(rows, memory, outputs.frames);
                return rows;
            }
        }
        let few = n.min(ONE_BY_ONE);
        self.make_each(few, memory, outputs);
        few
    }

    /// Makes the next n samples, at most 64, and adds their frames and the records of the voices in the
    /// mask; bit v of the mask is voice v.
    pub fn advance(
        &mut self,
        n: u8,
        memory: &mut Aram,
        mask: u8,
        frames: &mut Frames,
        records: &mut Records,
    )
        requires few { n ≤ max_samples_of_batch }
        requires frame_capacity { length frames.old + n ≤ frame_capacity }
        requires record_capacity { length records.old + 8 * n ≤ record_capacity }
        requires number { self.old.sample + n ≤ max_samples_of_chip }
        ensures made { AddsSamples mask (next_samples n self.old memory.old) self.new.state memory.new frames.old frames.new records.old records.new }
        ensures sample { self.new.sample ≡ self.old.sample + n }
        ensures batches { self.new.batches ≡ (if n == 0 then self.old.batches else count_after self.old.batches 1) }
        ensures total { self.new.total ≡ count_after self.old.total n }
    {
        self.total = self.total.saturating_add(u64::from(n));
        if n == 0 {
            return;
        }
        self.batches = self.batches.saturating_add(1);
        let mut outputs = Outputs {
            mask,
            frames,
            records,
        };
        let mut made = 0;
        'samples: while made < n {
            made += self.make_some(n - made, memory, &mut outputs);
        }
    }

    /// Saves all but the table.
    pub fn save(&self) -> DspState
        ensures { result ≡ saved_state self.now.state self.now.sample }
    {
        DspState {
            registers: self.state.registers,
            hidden: self.state.hidden,
            muted: self.state.muted,
            clock: self.clock,
            number: self.number,
        }
    }

    /// Puts back what was saved, of this chip or of another one. The table stays, and so do the numbers of batches and samples made in all.
    pub fn load(&mut self, saved: &DspState)
        ensures chip { self.new ≡ record self.old { state = loaded_state self.old.state saved.now; sample = saved.now.sample } }
        ensures is_valid { is_valid self.new.state ≡ true }
    {
        self.state.registers = saved.registers;
        self.state.hidden = saved.hidden;
        self.state.muted = saved.muted;
        self.clock = saved.clock;
        self.number = saved.number;
        self.fresh = false;
    }

    /// The number of batches made, each by an `advance` of at least one sample. It stays at its type's end.
    pub fn batches(&self) -> u64
        ensures { result ≡ self.now.batches }
    {
        self.batches
    }

    /// The number of samples made in all, those before a load too. It stays at its type's end.
    pub fn total(&self) -> u64
        ensures { result ≡ self.now.total }
    {
        self.total
    }

    /// The number of the next sample: of those made, and with a load of those made before what was saved.
    pub fn sample(&self) -> u32
        ensures number { result ≡ self.now.sample }
        ensures is_valid { is_valid self.now.state ≡ true }
    {
        self.number
    }

    /// The state of the chip.
    pub fn state(&self) -> &ChipState
        ensures { result.now ≡ self.now.state }
    {
        &self.state
    }

    /// Whether the next 64 samples can write bytes of a page.
    pub fn writes_page(&self, page: u8) -> bool
        ensures { (memory : List ℕ) → result ≡ set.contains (chip_reach self.now.state memory).write_pages page }
    {
        self.state.writes_page(page)
    }

    /// The window whose pages they can write: one of no bytes while the echo doesn't write.
    #[inline]
    pub fn written_window(&self) -> Window
        ensures { (memory : List ℕ) → (chip_reach self.now.state memory).write_pages ≡ set.from_list (window_pages result) }
    {
        self.state.written_window()
    }

    /// Whether they can read bytes of a page of a memory.
    pub fn reads_page(&self, memory: &Aram, page: u8) -> bool
        ensures { result ≡ set.contains (chip_reach self.now.state memory.now).read_pages page }
    {
        self.state.reads_page(memory, page)
    }

    /// Whether they can write what voices read.
    pub fn is_entangled(&self, memory: &Aram) -> bool
        ensures { result ≡ (chip_reach self.now.state memory.now).entangled }
    {
        !is_echo_apart(&self.state, memory)
    }
}
