// What the bytes of a file say without a player.
ghost use Rattle.std.specs.Prelude.{◌≡◌, ◌≢◌, IfOk};
ghost use Rattle.spc_form.specs.Accepted.{spc_file};
ghost use Rattle.spc_form.specs.Inspection.{info_of};
ghost use Rattle.player_c.specs.Info.{known_of, TextsStand};
ghost use Rattle.player_c.specs.Status.{ok, out_of_range, spc_status};

use crate::status::{OK, OUT_OF_RANGE, spc_status_of};
use spc_form::{SpcInfo, TextPlace, inspect};

/// The size of what is known, in bytes.
pub(crate) const INFO_SIZE: u32 = 80;

/// What the bytes of a file say of it, as C lays it out.
#[repr(C)]
#[derive(Clone, Copy, Debug, PartialEq, Eq)]
pub struct SpcwaveInfo {
    /// The size of this struct in bytes, 80, by which a later library knows which fields it has.
    pub size: u32,
    /// The length that the file asks for, in frames.
    pub frames: u32,
    /// How many of its last frames fade out.
    pub fade: u32,
    /// 1 where the file says that it has tags, else 0.
    pub tagged: u8,
    /// 1 where the tags give the length, 0 where three minutes are assumed.
    pub timed: u8,
    /// Where the texts of the tags stand in the bytes, by the tags' numbers.
    pub tags: [TextPlace; 8],
}

/// What is reported, as C has it.
fn known(info: SpcInfo) -> SpcwaveInfo
    ensures { result ≡ known_of info }
{
    let tags = info.texts;
    SpcwaveInfo {
        size: INFO_SIZE,
        frames: info.length.frames,
        fade: info.length.fade,
        tagged: u8::from(info.is_tagged),
        timed: u8::from(info.is_length_known),
        tags,
    }
}

/// Writes what the bytes of a file say, without a player and without memory. The texts stand in the bytes that are given. Where the answer isn't
/// OK nothing is written.
#[unsafe(no_mangle)]
pub extern "C" fn spcwave_inspect(spc: &[u8], info: &mut SpcwaveInfo) -> u32
    ensures out_of_range { info.old.size ≢ INFO_SIZE → result ≡ out_of_range }
    ensures status { info.old.size ≡ INFO_SIZE → result ≡ spc_status spc.now }
    ensures known { result ≡ ok → IfOk (spc_file spc.now) (λ file. info.new ≡ known_of (info_of file)) }
    ensures texts { result ≡ ok → IfOk (spc_file spc.now) (λ file. TextsStand spc.now file info.new.tags) }
    ensures otherwise { result ≢ ok → info.new ≡ info.old }
{
    if info.size != INFO_SIZE {
        return OUT_OF_RANGE;
    }
    match inspect(spc) {
        Ok(found) => {
            *info = known(found);
            OK
        }
        Err(refusal) => spc_status_of(refusal),
    }
}
