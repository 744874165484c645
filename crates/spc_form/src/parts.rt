// Parts of a list of bytes, and where those of a file stand.
ghost use Rattle.std.specs.Prelude.{◌≡◌, ◌+◌, ◌≤◌, length};
ghost use Rattle.spc_form.specs.Layout.{part_of};

/// The bytes of a file: what is kept of one, and what is written.
pub const KEPT_LENGTH: usize = 66048;

/// How many bytes stand before the memory: the signature, the processor's registers and the tags.
pub const HEAD_SIZE: usize = MEMORY_PLACE;

/// Where the byte stands that says whether there are tags.
pub const TAG_MARK_PLACE: usize = 0x23;

/// Where the minor number of the version stands.
pub const MINOR_PLACE: usize = 0x24;

/// Where the program counter begins, low byte first.
pub const PC_PLACE: usize = 0x25;

/// Where the register A stands.
pub const A_PLACE: usize = 0x27;

/// Where the register X stands.
pub const X_PLACE: usize = 0x28;

/// Where the register Y stands.
pub const Y_PLACE: usize = 0x29;

/// Where the status byte PSW stands.
pub const PSW_PLACE: usize = 0x2A;

/// Where the low byte of the stack pointer stands.
pub const SP_PLACE: usize = 0x2B;

/// Where the memory begins.
pub const MEMORY_PLACE: usize = 0x100;

/// Where the registers of the S-DSP begin.
pub const DSP_PLACE: usize = 0x10100;

/// How many registers the S-DSP has.
pub const DSP_SIZE: usize = 128;

/// Where the extra bytes begin.
pub const EXTRA_PLACE: usize = 0x101C0;

/// How many bytes the boot ROM has.
pub const ROM_SIZE: usize = 64;

/// Some bytes from a place on.
#[tactic(auto, unfolding(crate::specs::Layout::part_of))]
pub fn part(bytes: &[u8], place: usize, count: usize) -> &[u8]
    requires { place + count ≤ length bytes.now }
    ensures part { result.now ≡ part_of bytes.now place count }
    ensures len { length result.now ≡ count }
{
    let (first, _) = bytes[place..].split_at(count);
    first
}

/// An array of the bytes from a place on.
#[tactic(auto, unfolding(crate::specs::Layout::part_of))]
pub fn array_at<const N: usize>(bytes: &[u8], place: usize) -> [u8; N]
    requires { place + N ≤ length bytes.now }
    ensures { result ≡ part_of bytes.now place N }
{
    *bytes[place..].first_chunk::<N>().unwrap()
}
