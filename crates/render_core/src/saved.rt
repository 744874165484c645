// What is saved of a render.
ghost use Rattle.std.specs.Prelude.{◌≡◌};
ghost use Rattle.render_core.specs.Saved.{with_saved_chip};

use lag_bus::BusState;
use spc700_exec::Cpu;

/// What `Render::save` makes, or `with_chip` of such a value: the processor's registers and whether it is halted, and what is saved of
/// the bus. Memory stands beside it.
#[derive(Clone, Copy)]
pub struct PlayState<S> {
    pub(crate) cpu: Cpu,
    pub(crate) bus: BusState<S>,
}

impl<S: Copy> PlayState<S> {
    /// What is saved of the chip.
    pub fn chip(&self) -> S
        ensures { result ≡ self.now.bus.chip }
    {
        self.bus.chip()
    }

    /// The same with another chip.
    pub fn with_chip(self, chip: S) -> PlayState<S>
        ensures { result ≡ with_saved_chip self chip }
    {
        let PlayState { cpu, bus } = self;
        PlayState {
            cpu,
            bus: bus.with_chip(chip),
        }
    }
}
