//! Why bytes are no table.

ghost use Rattle.std.specs.Prelude.{◌≡◌};
ghost use Rattle.gauss_table.specs.declared.refusal.TableRefusal.TheVariants as R;

use crate::OutOfMemory;

/// Why bytes are no table of weights.
#[derive(Clone, Copy, Debug, PartialEq, Eq, thiserror::Error)]
pub enum TableRefusal {
    /// The number of bytes, where it is not 1,024.
    #[error("table has {0} bytes, not 1024")]
    Length(usize),
    /// There is no memory.
    #[error("out of memory")]
    OutOfMemory,
}

impl From<OutOfMemory> for TableRefusal {
    ghost from_gives = { λ _ refusal. refusal ≡ R.OutOfMemory };

    fn from(_: OutOfMemory) -> TableRefusal {
        TableRefusal::OutOfMemory
    }
}
