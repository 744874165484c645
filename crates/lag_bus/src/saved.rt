// What is saved of a bus.
ghost use Rattle.std.specs.Prelude.{◌≡◌};

use ports_timers::Io;

/// What `LagBus::save` makes, or `with_chip` of such a value: the ports and timers, the clock, and what is saved of the chip. Memory stands beside it.
#[derive(Clone, Copy)]
pub struct BusState<S> {
    pub(crate) io: Io,
    pub(crate) clock: u64,
    pub(crate) chip: S,
}

impl<S: Copy> BusState<S> {
    /// What is saved of the chip.
    pub fn chip(&self) -> S
        ensures { result ≡ self.now.chip }
    {
        self.chip
    }

    /// The same with another chip.
    pub fn with_chip(self, chip: S) -> BusState<S>
        ensures { result ≡ record self { chip = chip } }
    {
        let BusState { io, clock, chip: _ } = self;
        BusState { io, clock, chip }
    }
}
