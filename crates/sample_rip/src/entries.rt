// Which entries of the directory are ripped.
ghost use Rattle.std.specs.Prelude.{◌≡◌, ◌*◌, ◌==◌, ◌+◌, length, slice_index};
ghost use Rattle.std.specs.List.{range_with_len, list_any};
ghost use Rattle.spc_form.specs.Layout.{dsp_of};
ghost use Rattle.sample_rip.specs.Entries.{is_source, is_in_range, is_wanted, wanted_entries};

use spc_form::SpcFile;

/// Whether the register SRCN of a voice names the entry.
fn is_source(registers: &[u8], entry: u8) -> bool
    requires { length registers.now ≡ 128 }
    ensures { result ≡ is_source registers.now entry }
{
    registers[0x04] == entry
        || registers[0x14] == entry
        || registers[0x24] == entry
        || registers[0x34] == entry
        || registers[0x44] == entry
        || registers[0x54] == entry
        || registers[0x64] == entry
        || registers[0x74] == entry
}

/// Whether a range from a first to a last entry has the entry.
fn is_in_range(range: Option<(u8, u8)>, entry: u8) -> bool
    ensures { result ≡ is_in_range range entry }
{
    match range {
        Some((first, last)) => first <= entry && entry <= last,
        None => false,
    }
}

/// Whether an entry is ripped.
fn is_wanted(registers: &[u8], range: Option<(u8, u8)>, entry: u8) -> bool
    requires { length registers.now ≡ 128 }
    ensures { result ≡ is_wanted registers.now range entry }
{
    is_source(registers, entry) || is_in_range(range, entry)
}

/// Of each of the 256 entries of the directory, whether it is ripped: those that the registers SRCN of the eight voices
/// name, and those of a range, from its first to its last.
pub fn wanted(file: &SpcFile, range: Option<(u8, u8)>) -> [bool; 256]
    ensures { result ≡ wanted_entries (dsp_of file.now) range }
{
    let mut entries = [false; 256];
    for entry in 0..256u16 {
        entries[usize::from(entry)] = is_wanted(file.dsp(), range, entry as u8);
    }
    entries
}
