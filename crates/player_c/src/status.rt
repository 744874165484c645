// The numbers that calls answer.
ghost use Rattle.std.specs.Prelude.{◌≡◌, ◌<◌};
ghost use Rattle.player_c.specs.Status.{status_of, spc_status_of};

use spc_form::SpcRefusal;
use spc_player::PlayerRefusal;

/// All is well.
pub(crate) const OK: u32 = 0;

/// There is not enough memory.
pub(crate) const OUT_OF_MEMORY: u32 = 7;

/// A number is out of its range.
pub(crate) const OUT_OF_RANGE: u32 = 17;

/// A seek isn't at its frame yet.
pub(crate) const NOT_YET: u32 = 18;

/// The number of a refusal.
pub(crate) fn status_of(refusal: PlayerRefusal) -> u32
    ensures status { result ≡ status_of refusal }
    ensures some { 0 < result }
{
    match refusal {
        PlayerRefusal::SpcLength(_) => 4,
        PlayerRefusal::SpcSignature(_) => 5,
        PlayerRefusal::TableLength(_) => 6,
        PlayerRefusal::OutOfMemory => OUT_OF_MEMORY,
    }
}

/// The number of a refusal of a file alone.
pub(crate) fn spc_status_of(refusal: SpcRefusal) -> u32
    ensures status { result ≡ spc_status_of refusal }
    ensures some { 0 < result }
{
    status_of(PlayerRefusal::from(refusal))
}
