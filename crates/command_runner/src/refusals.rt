// Why a command stops.
ghost use Rattle.std.specs.Prelude.{◌≡◌};
ghost use Rattle.command_runner.specs.declared.refusals.Refusal.TheVariants.{OutOfMemory as NoMemory};

use crate::OutOfMemory;

/// Why a command stops. `C` is why the bytes of an input are refused.
#[derive(Clone, Copy, Debug, PartialEq, Eq)]
pub enum Refusal<C> {
    /// The words say no command.
    Usage,
    /// An input could not be read.
    ReadFault,
    /// An output or the report could not be written.
    WriteFault,
    /// There was no memory.
    OutOfMemory,
    /// The bytes of an input are refused.
    Input(C),
}

impl<C: Drop> From<OutOfMemory> for Refusal<C> {
    ghost from_gives = { λ _ refusal. refusal ≡ NoMemory };

    fn from(_: OutOfMemory) -> Self {
        Refusal::OutOfMemory
    }
}
