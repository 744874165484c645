//! What the processor is connected to.

ghost use Rattle.std.specs.Prelude.{◌≡◌, ◌-◌, ◌%◌, ◌<◌, ◌≤◌};
ghost use Rattle.spc700_exec.specs.Bus.{BusMeaning, IsLawful, max_calls, max_samples_of_bus};

/// The cycles for which a sample is made: it is due where the clock comes to a multiple of them.
pub const CYCLES_PER_SAMPLE: u64 = 32;

/// The most calls between two drains.
pub const MAX_CALLS: u8 = 64;

/// The most calls before a step.
pub const MAX_CALLS_BEFORE_STEP: u8 = 32;

/// A bus: what its calls answer and leave is given by three functions and three numbers.
pub trait Bus {
    /// What contracts see of the bus.
    ghost means: { BusMeaning Self };

    /// The byte at an address.
    fn read(&mut self, addr: u16) -> u8
        requires { means.calls self.old < max_calls }
        ensures answer { result ≡ (means.read self.old addr).0 }
        ensures next { self.new ≡ (means.read self.old addr).1 };

    /// Writes a byte to an address.
    fn write(&mut self, addr: u16, value: u8)
        requires { means.calls self.old < max_calls }
        ensures { self.new ≡ means.write self.old addr value };

    /// Lets cycles pass, as many as a sample has at most.
    fn pass(&mut self, cycles: u8)
        requires room { means.calls self.old < max_calls }
        requires some { 1 ≤ cycles }
        requires few { cycles ≤ CYCLES_PER_SAMPLE }
        requires time { means.due self.old < max_samples_of_bus }
        ensures { self.new ≡ means.pass self.old cycles };

    /// The cycles up to the next sample, 1 to 32.
    fn to_sample(&self) -> u8
        ensures { result ≡ CYCLES_PER_SAMPLE - means.clock self.now % CYCLES_PER_SAMPLE };

    ghost lawful: { IsLawful means };
}
