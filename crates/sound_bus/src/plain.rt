// A bus that makes each sample in the moment in which it falls due.
ghost use Rattle.std.specs.Prelude.{◌≡◌, ◌+◌, ◌*◌, ◌/◌, ◌<◌, ◌≤◌, true, length, IfOk};
ghost use Rattle.chip_form.specs.Samples.{AddsSample};
ghost use Rattle.trace_form.specs.Capacities.{frame_capacity, record_capacity};
ghost use Rattle.chip_form.specs.Limits.{max_samples_of_chip};
ghost use Rattle.lock_step.specs.Machine.{opened_machine};
ghost use Rattle.lock_step.specs.LockStep.{bus_answer, after_bus_read, after_bus_write, after_bus_pass, lock_step};
ghost use Rattle.lock_step.specs.LockStepEmits.{drained_machine, lock_step_emits, lock_step_counts};
ghost use Rattle.lock_step.specs.LockStepLaws.{lock_step-lawful, emits_frames, emits_records, frame_each, counting, beside};

use crate::OutOfMemory;
use aram_core::Aram;
use chip_form::Chip;
use lock_step::{Counts, DrainedBus, writes_port, writes_register};
use ports_timers::Io;
use spc_form::OpenState;
use spc700_exec::{Bus, CYCLES_PER_SAMPLE, Cpu, MAX_CALLS_BEFORE_STEP, step};
use std::alloc::Global;
use std::marker::Model;
use trace_form::{Frames, Record, Records};

/// A bus over a chip that makes each sample in the moment in which it falls due. What is emitted waits in it for the next drain.
#[derive(Drop)]
pub struct PlainBus<C: Chip> {
    memory: Aram,
    io: Io,
    chip: C,
    mask: u8,
    clock: u64,
    frames: Frames,
    records: Records,
    calls: u8,
}

impl<C: Chip> Model for PlainBus<C> {
    ghost use Rattle.std.specs.Prelude.{◌≡◌, ◌+◌, ◌*◌, ◌/◌, ◌<◌, ◌≤◌, length};
    ghost use Rattle.spc700_exec.specs.Bus.{max_calls};
    ghost use Rattle.spc700_exec.specs.declared.bus.TheConstants.{CYCLES_PER_SAMPLE};
    ghost use Rattle.chip_form.specs.Limits.{max_samples_of_chip};
    ghost use Rattle.lock_step.specs.Machine.{Machine};

    ghost Value = { Machine C.State };

    ghost view = { λ b. record {
      memory = b.memory;
      io = b.io;
      chip = C.state b.chip;
      mask = b.mask;
      clock = b.clock;
      frames = b.frames;
      records = b.records;
      calls = b.calls;
    } };

    // A call emits at most one frame and the records of one sample.
    ghost invariant = { λ b. (C.sample b.chip ≡ b.clock / CYCLES_PER_SAMPLE)
        × (length b.frames ≤ b.calls)
        × (length b.records ≤ 9 * b.calls)
        × (b.clock < CYCLES_PER_SAMPLE * (max_samples_of_chip + 1))
        × (b.calls ≤ max_calls) };
}

/// Makes the next sample.
fn make_sample<C: Chip>(
    chip: &mut C,
    memory: &mut Aram,
    mask: u8,
    frames: &mut Frames,
    records: &mut Records,
)
    requires is_valid { C.meaning.is_valid (C.state chip.old) ≡ true }
    requires number { C.sample chip.old < max_samples_of_chip }
    requires frame_capacity { length frames.old < frame_capacity }
    requires record_capacity { length records.old + 8 ≤ record_capacity }
    ensures made { let made = C.meaning.one_sample (C.sample chip.old) (C.state chip.old) memory.old in
        AddsSample mask made (C.state chip.new) memory.new frames.old frames.new records.old records.new }
    ensures sample { C.sample chip.new ≡ C.sample chip.old + 1 }
    ensures frame_count { length frames.new ≡ length frames.old + 1 }
    ensures record_count { length records.new ≤ length records.old + 8 }
{
    chip.advance(1, memory, mask, frames, records);
}

impl<C: Chip> PlainBus<C> {
    /// The bus at clock 0 over a chip that stands at sample 0 and has made no batch. It emits the records of the voices in the mask;
    /// bit v of the mask is voice v. All memory is allocated here. The chip has its registers already, so the opening's aren't used.
    pub fn open(alloc: Global, opening: OpenState, chip: C, mask: u8) -> Result<Self, OutOfMemory>
        requires sample { C.sample chip ≡ 0 }
        requires batches { C.batches chip ≡ 0 }
        ensures { IfOk result (λ bus. bus ≡ opened_machine opening.memory opening.cells opening.rom (C.state chip) mask) }
    {
        let frames = Frames::new(alloc)?;
        let records = Records::new(alloc)?;
        Ok(PlainBus {
            memory: opening.memory,
            io: Io::from_cells(opening.cells, opening.rom),
            chip,
            mask,
            clock: 0,
            frames,
            records,
            calls: 0,
        })
    }

    /// The samples that the chip hasn't made yet: none.
    pub fn pending(&self) -> u8
        ensures { result ≡ 0 }
    {
        0
    }

    /// How often the chip ran: each sample is a batch of its own, and none of them has a cause.
    pub fn counts(&self) -> Counts
        ensures { result ≡ lock_step_counts self.now }
    {
        Counts {
            batches: u64::from(self.due()),
            register: 0,
            memory: 0,
            echo: 0,
            full: 0,
            events: 0,
            end: 0,
        }
    }
}

impl<C: Chip> Bus for PlainBus<C> {
    ghost means = { lock_step C.meaning };

    fn read(&mut self, addr: u16) -> u8 {
        self.calls += 1;
        if addr == 0xF3 {
            return self.chip.reg_read(self.io.dsp_address() % 0x80);
        }
        match self.io.read(addr) {
            Some(byte) => byte,
            None => self.memory.get(addr),
        }
    }

    fn write(&mut self, addr: u16, value: u8) {
        self.calls += 1;
        let sample = self.due();
        let address = self.io.dsp_address();
        if writes_register(address, addr) {
            self.chip.reg_write(address, value);
            self.records.push(Record::Reg {
                sample,
                addr: address,
                value,
            });
        } else if writes_port(addr) {
            self.records.push(Record::Port {
                sample,
                port: (addr - 0xF4) as u8,
                value,
            });
        }
        self.memory.put(addr, value);
        self.io.write(addr, value);
    }

    fn pass(&mut self, cycles: u8) {
        self.calls += 1;
        self.io.ticks(self.clock, cycles);
        self.clock += u64::from(cycles);
        if u64::from(self.chip.sample()) < self.clock / CYCLES_PER_SAMPLE {
            make_sample(
                &mut self.chip,
                &mut self.memory,
                self.mask,
                &mut self.frames,
                &mut self.records,
            );
        }
    }

    fn to_sample(&self) -> u8 {
        (CYCLES_PER_SAMPLE - self.clock % CYCLES_PER_SAMPLE) as u8
    }

    ghost lawful = { lock_step-lawful C.meaning };
}

impl<C: Chip> DrainedBus for PlainBus<C> {
    ghost emits = { lock_step_emits };

    fn due(&self) -> u32 {
        (self.clock / CYCLES_PER_SAMPLE) as u32
    }

    fn has_room_for_step(&self) -> bool {
        self.calls <= MAX_CALLS_BEFORE_STEP
    }

    /// Takes one step.
    fn take_steps(&mut self, cpu: &mut Cpu, _samples: u32, drain_budget: u8) -> u8 {
        step(cpu, self);
        drain_budget
    }

    /// Makes no iteration at once.
    fn wait(&mut self, _cpu: &Cpu, _samples: u32) {}

    /// Changes nothing, as no sample is pending.
    fn settle(&mut self)
        ensures { self.new ≡ self.old }
    {}

    /// Clears both lists and moves into them what was emitted since the last drain.
    fn drain(&mut self, frames: &mut Frames, records: &mut Records)
        ensures frames { frames.new ≡ self.old.frames }
        ensures records { records.new ≡ self.old.records }
        ensures rest { self.new ≡ drained_machine self.old }
    {
        frames.clear();
        std::mem::swap(&mut self.frames, frames);
        records.clear();
        std::mem::swap(&mut self.records, records);
        self.calls = 0;
    }

    ghost emits_frames = { emits_frames C.meaning };

    ghost emits_records = { emits_records C.meaning };

    ghost frame_each = { frame_each C.meaning };

    ghost counting = { counting C.meaning };

    ghost beside = { beside C.meaning };
}
