// A bus that makes samples late, many at once.
//
// What an access runs. Each call decides what it can, and leaves the rest to the one below it:
//
//     CachedClockBus::read      memory alone that no pending sample writes, as a mark shows
//       read_later              the bus catches up with the cached clock
//         read_memory_first     memory alone, and nothing is pending
//           LagBus::read        page 0 where a mark shows that no pending sample writes it: mostly a port
//             read_unmarked     memory: the pending samples are made first if they may write there
//               read_register   F3h: they are made first if they write that register
//
//     CachedClockBus::write     memory alone that no pending sample reads, as a mark shows
//       write_later             the bus catches up with the cached clock
//         LagBus::write         memory: the pending samples are made first if they may read there
//           write_io            F0h to FFh: the pending samples are made first if there is a cause
//             write_now             none is pending
//             write_beside_pending  they stay pending
//
//     CachedClockBus::pass      no batch is full before the end of these cycles
//       pass_later              the bus catches up with the cached clock
//         LagBus::pass          a sample more is pending where one falls due; a full batch is made
ghost use Rattle.std.specs.Prelude.{◌≡◌, ◌+◌, ◌*◌, ◌/◌, ◌-◌, ◌<◌, ◌≤◌, ◌%◌, ◌++◌, ◌∷◌, [], ◌==◌, unwrap_or, ◌||◌, not, true, false, length, if◌then◌else◌, IfOk};
ghost use Rattle.aram_core.specs.Memory.{byte_at, with_byte};
ghost use Rattle.spc700_exec.specs.Bus.{max_calls};
ghost use Rattle.chip_form.specs.Samples.{count_after};
ghost use Rattle.trace_form.specs.Capacities.{record_capacity, event_capacity};
ghost use Rattle.num_fix.specs.Limits.{max_frames};
ghost use Rattle.chip_form.specs.Limits.{max_samples_of_batch};
ghost use Rattle.lock_step.specs.Machine.{opened_machine};
ghost use Rattle.lock_step.specs.LockStep.{samples_due, writes_register, writes_port, write_records};
ghost use Rattle.lag_bus.specs.Ready.{ready_frames, ready_records};
ghost use Rattle.lag_bus.specs.Book.{counts_with_batch, AddsUp, may_be_read, may_be_written};
ghost use Rattle.lag_bus.specs.Lagging.{lagging, opened_lagging, after_settle, HasNumbersOfBook, MatchesBook};
ghost use Rattle.lag_bus.specs.Saved.{CanBeLoaded, saved_bus, loaded_lagging};
ghost use Rattle.lag_bus.specs.LagEmits.{lag_emits, after_drain};
ghost use Rattle.lag_bus.specs.LagLaws.{lagging-lawful, emits_frames, emits_records, frame_each, counting, beside};
ghost use Rattle.ports_timers.specs.Zeros.{zeros_stay, AreTimers};
ghost use Rattle.lag_bus.specs.IdleCycles.{byte_seen, samples_in};
ghost use Rattle.lag_bus.specs.Held.{IsMemoryAlone};

use crate::OutOfMemory;
use crate::cached_clock_bus::take_steps;
use crate::cause::Cause;
use crate::clocked::{ClockedIo, counter_is_0};
use crate::counting::{counts_with_batch, no_counts};
use crate::deferred_bus::DeferredBus;
use crate::deferred_chip::{DeferredChip, is_in_hand, queue_all};
use crate::saved::BusState;
use aram_core::Aram;
use chip_form::Chip;
use idle_loops::{ReadOnlyBus, try_iteration};
use lock_step::{Counts, DrainedBus, writes_port, writes_register};
use num_fix::BATCH_SIZE;
use ports_timers::{Io, cycles_of_zeros};
use spc_form::OpenState;
use spc700_exec::{Bus, CYCLES_PER_SAMPLE, Cpu, MAX_CALLS_BEFORE_STEP, step};
use std::alloc::Global;
use std::marker::Model;
use trace_form::{EventRing, Frames, Record, Records};

/// The most samples that wait, which are then made as one batch.
const MAX_PENDING: u8 = BATCH_SIZE as u8;

/// A bus over a chip whose samples wait, at most 64 of them, until something needs them, and are then made as one batch.
/// What is emitted waits in it for the next drain.
#[derive(Drop)]
pub struct LagBus<C: Chip> {
    deferred: DeferredChip<C>,
    time: ClockedIo,
    counts: Counts,
}

impl<C: Chip> Model for LagBus<C> {
    ghost use Rattle.std.specs.Coded.{codes};
    ghost use Rattle.aram_core.specs.contracts.page_set.PageSet as page_set;
    ghost use Rattle.lag_bus.specs.Lagging.{Lagging};
    ghost use Rattle.lag_bus.specs.IsLagging.{lagging_of, IsLagging};

    ghost Value = { Lagging C.State };

    ghost coded = { Prim.hlevel (codes, page_set.the_row.coded) };

    ghost view = { λ b. lagging_of b.deferred b.time.io b.time.clock b.counts b.time.calls };

    ghost invariant = { λ b. IsLagging b.deferred b.counts b.time.clock b.time.calls };
}

/// Makes the pending samples, for a cause.
// Out of line, as all that is rarer than an access: what each access runs stays small.
#[inline(never)]
#[tactic(auto, using(crate::proofs::CountsAddUp::adds_up))]
fn settle_for<C: Chip>(deferred: &mut DeferredChip<C>, counts: &mut Counts, cause: Cause)
    requires { 0 < deferred.old.pending }
    ensures deferred { deferred.new ≡ record deferred.old {
      pending = 0;
      events = 0;
      reach = C.meaning.reach deferred.old.chip deferred.old.memory;
      batches = count_after deferred.old.batches 1;
      total = count_after deferred.old.total deferred.old.pending;
      records_used = deferred.new.records_used;
    } }
    ensures room { deferred.new.records_used ≤ deferred.old.records_used }
    ensures counts { counts.new ≡ counts_with_batch cause counts.old }
    ensures adds_up { AddsUp counts.old → AddsUp counts.new }
{
    deferred.settle();
    *counts = counts_with_batch(cause, *counts);
}

impl<C: Chip> LagBus<C> {
    /// The bus at clock 0 over a chip that stands at sample 0 and has made no batch. It emits the records of the voices in the mask;
    /// bit v of the mask is voice v. All memory is allocated here. The chip has its registers already, so the opening's aren't used.
    pub fn open(alloc: Global, opening: OpenState, chip: C, mask: u8) -> Result<Self, OutOfMemory>
        requires sample { C.sample chip ≡ 0 }
        requires batches { C.batches chip ≡ 0 }
        ensures { let machine = opened_machine opening.memory opening.cells opening.rom (C.state chip) mask in
            IfOk result (λ bus. bus ≡ opened_lagging C.meaning machine (C.total chip)) }
    {
        is_in_hand(&chip);
        let frames = Frames::new(alloc)?;
        let records = Records::new(alloc)?;
        let voices = Records::new(alloc)?;
        let ring = EventRing::new(alloc)?;
        Ok(LagBus {
            deferred: DeferredChip::new(chip, opening.memory, mask, frames, records, voices, ring),
            time: ClockedIo::new(Io::from_cells(opening.cells, opening.rom), 0),
            counts: no_counts(),
        })
    }

    /// The current chip. It made the batches and samples that are counted, and its next sample is the first one pending. Where none is
    /// pending it is that of the machine.
    pub fn chip(&self) -> &C
        ensures batches { C.batches result.now ≡ self.now.chip_batches }
        ensures sample { C.sample result.now ≡ self.now.chip_sample }
        ensures total { C.total result.now ≡ self.now.chip_total }
        ensures counted { C.batches result.now ≡ self.now.book.counts.batches }
        ensures made { C.sample result.now ≡ samples_due self.now.machine - self.now.book.pending }
        ensures all { C.total result.now ≡ self.now.book.total }
        ensures state { self.now.book.pending ≡ 0 → C.state result.now ≡ self.now.machine.chip }
    {
        self.deferred.chip()
    }

    /// The samples that the chip hasn't made yet.
    pub fn pending(&self) -> u8
        ensures pending { result ≡ self.now.book.pending }
        ensures few { result ≤ max_samples_of_batch }
    {
        self.deferred.pending()
    }

    /// How often the chip ran, and why. The current chip, which `chip` gives, made these batches.
    pub fn counts(&self) -> Counts
        ensures counts { result ≡ self.now.book.counts }
        ensures adds_up { AddsUp result }
        ensures batches { self.now.chip_batches ≡ result.batches }
        ensures sample { self.now.chip_sample ≡ samples_due self.now.machine - self.now.book.pending }
    {
        self.counts
    }

    /// The samples that the current chip made in all, those before a load too. It stays at its type's end.
    pub fn total(&self) -> u64
        ensures { result ≡ self.now.chip_total }
    {
        self.deferred.total()
    }

    /// The numbers of the current chip are those of the book.
    pub fn matches_its_book(&self)
        ensures { MatchesBook self.now }
    {
        self.deferred.counts_fit();
    }

    /// Saves the bus but for its memory, while no sample is pending.
    pub fn save(&self) -> BusState<C::Saved>
        requires { self.now.book.pending ≡ 0 }
        ensures saved { result ≡ saved_bus C.saving self.now.machine }
        ensures can_be_loaded { CanBeLoaded C.saving result }
    {
        BusState {
            io: self.time.io(),
            clock: self.time.clock(),
            chip: self.deferred.save(),
        }
    }

    /// The memory, while no sample is pending.
    pub fn memory(&self) -> &Aram
        requires { self.now.book.pending ≡ 0 }
        ensures { result.now ≡ self.now.machine.memory }
    {
        self.deferred.memory()
    }

    /// Loads what was saved, of this bus or of another one, over a memory, while no sample is pending and all was drained. The mask
    /// and the counts stay, and the fixed part of the chip.
    pub fn load(&mut self, saved: &BusState<C::Saved>, memory: &Aram)
        requires pending { self.old.book.pending ≡ 0 }
        requires frames { self.old.machine.frames ≡ [] }
        requires records { self.old.machine.records ≡ [] }
        requires saved { CanBeLoaded C.saving saved.now }
        ensures loaded { self.new ≡ loaded_lagging C.meaning C.saving self.old saved.now memory.now }
        ensures batches { self.new.chip_batches ≡ self.old.chip_batches }
        ensures total { self.new.chip_total ≡ self.old.chip_total }
    {
        self.deferred.load(&saved.chip, memory);
        self.time = ClockedIo::new(saved.io, saved.clock);
    }

    /// A read of F3h.
    // Out of line, as what is rarer than an access of memory alone.
    #[inline(never)]
    fn read_register(&mut self) -> u8
        requires { self.old.machine.calls < max_calls }
        ensures answer { result ≡ ((lagging C.meaning).read self.old 0xF3).0 }
        ensures next { self.new ≡ ((lagging C.meaning).read self.old 0xF3).1 }
    {
        self.time.count();
        let address = self.time.dsp_address();
        if self.deferred.pending() > 0 {
            if let Some(cause) = self.deferred.cause_of_read(address, 0xF3) {
                settle_for(&mut self.deferred, &mut self.counts, cause);
            }
        }
        let known = self.time.read(0xF3);
        answer_of(&self.deferred, address, known, 0xF3)
    }

    /// A read of an address on a page without a mark.
    // Out of line, as what is rarer than an access of memory alone.
    #[inline(never)]
    #[tactic(auto, using(crate::proofs::PassesInHand::alone_apart))]
    fn read_unmarked(&mut self, addr: u16) -> u8
        requires { self.old.machine.calls < max_calls }
        ensures answer { result ≡ ((lagging C.meaning).read self.old addr).0 }
        ensures next { self.new ≡ ((lagging C.meaning).read self.old addr).1 }
    {
        if addr == 0xF3 {
            return self.read_register();
        }
        self.time.count();
        if self.deferred.pending_may_write(addr) {
            settle_for(&mut self.deferred, &mut self.counts, Cause::Echo);
        }
        if is_memory_alone(addr) {
            return self.deferred.get(addr);
        }
        let address = self.time.dsp_address();
        let known = self.time.read(addr);
        answer_of(&self.deferred, address, known, addr)
    }

    /// A read that is first looked at as one of memory alone while nothing is pending. Where each sample is a batch, as with an echo that
    /// writes page 0, most are.
    #[inline(always)]
    #[tactic(auto, using(crate::proofs::PassesInHand::alone_apart))]
    fn read_memory_first(&mut self, addr: u16) -> u8
        requires { self.old.machine.calls < max_calls }
        ensures answer { result ≡ ((lagging C.meaning).read self.old addr).0 }
        ensures next { self.new ≡ ((lagging C.meaning).read self.old addr).1 }
    {
        if self.deferred.pending() == 0 && is_memory_alone(addr) {
            self.time.count();
            return self.deferred.get(addr);
        }
        self.read(addr)
    }

    /// Cycles for which it can be waited before the end of a run to so many samples.
    fn cycles_to_wait(&self, samples: u32) -> u64
        requires more { samples_due self.now.machine < samples }
        requires few { samples ≤ max_frames }
        ensures zeros { zeros_stay self.now.machine.io self.now.machine.clock result ≡ true }
        ensures free { self.now.book.pending + samples_in self.now.machine.clock result < max_samples_of_batch }
        ensures below { (self.now.machine.clock + result) / CYCLES_PER_SAMPLE < samples }
        ensures timers { AreTimers self.now.machine.io }
    {
        let clock = self.time.clock();
        let free = CYCLES_PER_SAMPLE * u64::from(MAX_PENDING - self.deferred.pending())
            - 1
            - clock % CYCLES_PER_SAMPLE;
        let rest = CYCLES_PER_SAMPLE * u64::from(samples) - 1 - clock;
        cycles_of_zeros(&self.time.io(), clock).min(free.min(rest))
    }

    /// A write of F0h to FFh.
    // Out of line, as what is rarer than an access of memory alone.
    #[inline(never)]
    fn write_io(&mut self, addr: u16, value: u8)
        requires { self.old.machine.calls < max_calls }
        ensures { self.new ≡ (lagging C.meaning).write self.old addr value }
    {
        self.time.count();
        let sample = self.due();
        let address = self.time.dsp_address();
        self.time.write(addr, value);
        if self.deferred.pending() == 0 {
            return write_now(&mut self.deferred, address, addr, value, sample);
        }
        match self.deferred.cause_of_write(address, addr) {
            Some(cause) => {
                settle_for(&mut self.deferred, &mut self.counts, cause);
                write_now(&mut self.deferred, address, addr, value, sample);
            }
            None => write_beside_pending(&mut self.deferred, addr, value, sample),
        }
    }
}

/// Whether memory alone is at an address: no port, no timer, no register and no ROM.
fn is_memory_alone(addr: u16) -> bool
    ensures { result ≡ true → IsMemoryAlone addr }
{
    match addr {
        0xF0..=0xFF | 0xFFC0.. => false,
        _ => true,
    }
}

/// The answer of a read for which no pending sample is needed, by what the ports and timers show, if they do.
fn answer_of<C: Chip>(deferred: &DeferredChip<C>, address: u8, known: Option<u8>, at: u16) -> u8
    requires memory { (deferred.now.pending == 0 || not (may_be_written deferred.now.reach at)) ≡ true }
    requires register { at ≡ 0xF3 → (deferred.now.pending == 0 || not (C.meaning.is_result (address % 0x80))) ≡ true }
    ensures { result ≡ if at == 0xF3 then C.meaning.register_read deferred.now.chip (address % 0x80) else unwrap_or known (byte_at deferred.now.memory at) }
{
    if at == 0xF3 {
        return deferred.reg_read(address % 0x80);
    }
    match known {
        Some(byte) => byte,
        None => deferred.get(at),
    }
}

/// What a write does while no sample is pending.
fn write_now<C: Chip>(deferred: &mut DeferredChip<C>, address: u8, at: u16, value: u8, sample: u32)
    requires none { deferred.old.pending ≡ 0 }
    requires sample { sample ≡ deferred.old.due }
    requires room { deferred.old.records_used < record_capacity }
    ensures deferred { deferred.new ≡ record deferred.old {
      memory = with_byte deferred.old.memory at value;
      chip = if writes_register address at then C.meaning.register_write deferred.old.chip address value else deferred.old.chip;
      records = deferred.old.records ++ write_records sample address at value;
      reach = deferred.new.reach;
      records_used = deferred.new.records_used;
    } }
    ensures reach { deferred.new.reach ≡ C.meaning.reach deferred.new.chip deferred.new.memory }
    ensures same_reach { writes_register address at ≡ false → may_be_read deferred.old.reach at ≡ false → deferred.new.reach ≡ deferred.old.reach }
    ensures room { deferred.new.records_used ≤ deferred.old.records_used + 1 }
{
    if writes_register(address, at) {
        deferred.reg_write(address, value);
        deferred.emit(Record::Reg {
            sample,
            addr: address,
            value,
        });
    } else if writes_port(at) {
        deferred.emit(Record::Port {
            sample,
            port: (at - 0xF4) as u8,
            value,
        });
    }
    deferred.put(at, value);
}

/// What a write does for which no pending sample is needed.
fn write_beside_pending<C: Chip>(deferred: &mut DeferredChip<C>, at: u16, value: u8, sample: u32)
    requires free { may_be_read deferred.old.reach at ≡ false }
    requires some { 0 < deferred.old.pending }
    requires ring { writes_port at ≡ true → deferred.old.events < event_capacity }
    requires sample { sample ≡ deferred.old.due }
    requires room { deferred.old.records_used < record_capacity }
    ensures deferred { deferred.new ≡ record deferred.old {
      memory = with_byte deferred.old.memory at value;
      records = deferred.old.records ++ write_records sample 0x80 at value;
      events = if writes_port at then deferred.old.events + 1 else deferred.old.events;
      records_used = deferred.new.records_used;
    } }
    ensures room { deferred.new.records_used ≤ deferred.old.records_used + 1 }
{
    if writes_port(at) {
        deferred.emit(Record::Port {
            sample,
            port: (at - 0xF4) as u8,
            value,
        });
    }
    deferred.put(at, value);
}

impl<C: Chip> Bus for LagBus<C> {
    ghost means = { lagging C.meaning };

    // Mostly the address is a port, in page 0, which no sample writes. Out of line, as what is rarer than an access of memory alone.
    #[inline(never)]
    fn read(&mut self, addr: u16) -> u8 {
        if addr >= 0x100 || addr == 0xF3 || !self.deferred.is_unwritten(addr) {
            return self.read_unmarked(addr);
        }
        self.time.count();
        let address = self.time.dsp_address();
        let known = self.time.read(addr);
        answer_of(&self.deferred, address, known, addr)
    }

    fn write(&mut self, addr: u16, value: u8) {
        match addr {
            0xF0..=0xFF => self.write_io(addr, value),
            _ => {
                self.time.count();
                if self.deferred.pending() > 0 && self.deferred.may_be_read(addr) {
                    settle_for(&mut self.deferred, &mut self.counts, Cause::Memory);
                }
                self.deferred.put(addr, value);
            }
        }
    }

    fn pass(&mut self, cycles: u8) {
        let from = self.time.clock();
        self.time.pass(cycles);
        if from / CYCLES_PER_SAMPLE < self.time.clock() / CYCLES_PER_SAMPLE {
            self.deferred.queue();
            if self.deferred.pending() == MAX_PENDING {
                settle_for(&mut self.deferred, &mut self.counts, Cause::Full);
            }
        }
    }

    fn to_sample(&self) -> u8 {
        (CYCLES_PER_SAMPLE - self.time.clock() % CYCLES_PER_SAMPLE) as u8
    }

    ghost lawful = { lagging-lawful C.meaning };
}

// What each access in hand asks is in line with it.
impl<C: Chip> DeferredBus for LagBus<C> {
    type C = C;

    ghost shows = { λ bus. bus };

    #[inline(always)]
    fn is_unwritten_memory(&self, addr: u16) -> bool {
        self.deferred.is_unwritten_memory(addr)
    }

    #[inline(always)]
    fn is_unread_memory(&self, addr: u16) -> bool {
        self.deferred.is_unread_memory(addr)
    }

    #[inline(always)]
    fn byte(&self, addr: u16) -> u8 {
        self.deferred.get(addr)
    }

    #[inline(always)]
    fn put_unread(&mut self, addr: u16, value: u8) {
        self.deferred.put_unread(addr, value);
    }

    fn clock(&self) -> u64 {
        self.matches_its_book();
        self.time.clock()
    }

    fn calls(&self) -> u8 {
        self.time.calls()
    }

    fn flush_deadline(&self) -> u64 {
        let to_come = u64::from(MAX_PENDING - self.deferred.pending());
        CYCLES_PER_SAMPLE * (self.time.clock() / CYCLES_PER_SAMPLE + to_come)
    }

    // In line with the loop over steps, which asks it where the room for calls is filled.
    #[inline]
    fn begin_calls_anew(&mut self) -> bool {
        if !self.deferred.is_drained() {
            return false;
        }
        self.time.restart();
        true
    }

    fn catch_up(&mut self, clock: u64, calls: u8) {
        self.deferred.holds_only_what_waits();
        let fallen = (clock / CYCLES_PER_SAMPLE - self.time.clock() / CYCLES_PER_SAMPLE) as u8;
        self.time.catch_up(clock, calls);
        queue_all(&mut self.deferred, fallen);
    }

    // Out of line and cold, as what is rarer than an access of memory alone: what a step keeps in registers is put away where it is called,
    // and not in front of the test. So are the next three.
    #[cold]
    #[inline(never)]
    fn read_later(&mut self, clock: u64, calls: u8, addr: u16) -> u8 {
        self.catch_up(clock, calls);
        self.read_memory_first(addr)
    }

    #[cold]
    #[inline(never)]
    fn write_later(&mut self, clock: u64, calls: u8, addr: u16, value: u8) {
        self.catch_up(clock, calls);
        self.write(addr, value);
    }

    #[cold]
    #[inline(never)]
    fn pass_later(&mut self, clock: u64, calls: u8, cycles: u8) {
        self.catch_up(clock, calls);
        self.pass(cycles);
    }

    #[cold]
    #[inline(never)]
    fn step_later(&mut self, clock: u64, calls: u8, cpu: Cpu) -> Cpu {
        self.catch_up(clock, calls);
        let mut after = cpu;
        step(&mut after, self);
        after
    }
}

impl<C: Chip> ReadOnlyBus for LagBus<C> {
    ghost sees = { byte_seen C.meaning };

    fn peek(&self, addr: u16) -> Option<u8> {
        // Mostly a mark shows that memory alone is there, and then no timer is asked.
        if self.deferred.is_unwritten_memory(addr) {
            return Some(self.deferred.get(addr));
        }
        if addr == 0xF3 || self.deferred.is_written(addr) {
            return None;
        }
        let mut io = self.time.io();
        if !counter_is_0(&io, addr) {
            return None;
        }
        let address = io.dsp_address();
        let known = io.read(addr);
        Some(answer_of(&self.deferred, address, known, addr))
    }
}

impl<C: Chip> DrainedBus for LagBus<C> {
    ghost emits = { lag_emits C.meaning };

    /// The samples that are due. The chip's numbers are those of the book, as after every call.
    fn due(&self) -> u32
        ensures due { result ≡ samples_due self.now.machine }
        ensures numbers { HasNumbersOfBook self.now }
    {
        (self.time.clock() / CYCLES_PER_SAMPLE) as u32
    }

    fn has_room_for_step(&self) -> bool {
        self.time.calls() <= MAX_CALLS_BEFORE_STEP
    }

    fn take_steps(&mut self, cpu: &mut Cpu, samples: u32, drain_budget: u8) -> u8 {
        take_steps(self, cpu, samples, drain_budget)
    }

    fn wait(&mut self, cpu: &Cpu, samples: u32) {
        if !self.deferred.is_drained() {
            return;
        }
        let Some(iteration) = try_iteration(&*self, cpu) else {
            return;
        };
        let iterations = self.cycles_to_wait(samples) / u64::from(iteration);
        let cycles = iterations * u64::from(iteration);
        let clock = self.time.clock();
        let fallen = ((clock + cycles) / CYCLES_PER_SAMPLE - clock / CYCLES_PER_SAMPLE) as u8;
        self.time.wait(cycles);
        queue_all(&mut self.deferred, fallen);
    }

    /// Makes the pending samples, as one batch.
    fn settle(&mut self)
        ensures { self.new ≡ after_settle C.meaning self.old }
    {
        if self.deferred.pending() > 0 {
            settle_for(&mut self.deferred, &mut self.counts, Cause::End);
        }
    }

    /// Clears both lists and moves into them what was emitted since the last drain and before the first pending sample.
    fn drain(&mut self, frames: &mut Frames, records: &mut Records)
        ensures ready_frames { frames.new ≡ ready_frames self.old.book.pending self.old.machine.frames }
        ensures ready_records { records.new ≡ ready_records self.old.chip_sample self.old.machine.records }
        ensures rest { self.new ≡ after_drain self.old }
        ensures all_records { self.old.machine.records ≡ records.new ++ self.new.machine.records }
        ensures none_waits { self.old.book.pending ≡ 0 → self.new.machine.records ≡ [] }
    {
        self.deferred.drain(frames, records);
        self.time.restart();
    }

    ghost emits_frames = { emits_frames C.meaning };

    ghost emits_records = { emits_records C.meaning };

    ghost frame_each = { frame_each C.meaning };

    ghost counting = { counting C.meaning };

    ghost beside = { beside C.meaning };
}
