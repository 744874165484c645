// Why a player is not opened.
ghost use Rattle.std.specs.Prelude.{◌≡◌};
ghost use Rattle.spc_player.specs.declared.refusal.PlayerRefusal.TheVariants as refusals;
ghost use Rattle.spc_player.specs.Refusals.{of_spc, of_table};

use crate::OutOfMemory;
use gauss_table::TableRefusal;
use spc_form::SpcRefusal;

/// Why a player is not opened.
#[derive(Clone, Copy, Debug, PartialEq, Eq, thiserror::Error)]
pub enum PlayerRefusal {
    /// The number of bytes, where it is not that of an SPC file.
    #[error("{0} bytes are no SPC file")]
    SpcLength(usize),
    /// The first place at which the bytes differ from the signature.
    #[error("the signature differs at {0}")]
    SpcSignature(usize),
    /// The number of bytes of a table, where it is not 1,024.
    #[error("table has {0} bytes, not 1024")]
    TableLength(usize),
    /// There is no memory.
    #[error("out of memory")]
    OutOfMemory,
}

impl From<OutOfMemory> for PlayerRefusal {
    ghost from_gives = { λ _ refusal. refusal ≡ refusals.OutOfMemory };

    fn from(_: OutOfMemory) -> PlayerRefusal {
        PlayerRefusal::OutOfMemory
    }
}

impl From<SpcRefusal> for PlayerRefusal {
    ghost from_gives = { λ refusal given. given ≡ of_spc refusal };

    fn from(refusal: SpcRefusal) -> PlayerRefusal {
        match refusal {
            SpcRefusal::Length(length) => PlayerRefusal::SpcLength(length),
            SpcRefusal::Signature(at) => PlayerRefusal::SpcSignature(at),
            SpcRefusal::OutOfMemory => PlayerRefusal::OutOfMemory,
        }
    }
}

impl From<TableRefusal> for PlayerRefusal {
    ghost from_gives = { λ refusal given. given ≡ of_table refusal };

    fn from(refusal: TableRefusal) -> PlayerRefusal {
        match refusal {
            TableRefusal::Length(length) => PlayerRefusal::TableLength(length),
            TableRefusal::OutOfMemory => PlayerRefusal::OutOfMemory,
        }
    }
}
