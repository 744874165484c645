//! The row of kept samples that a voice reads in a span of samples.

ghost use Rattle.std.specs.Prelude.{◌≡◌, ◌<◌, ◌≤◌, ◌+◌, ◌*◌, ℕ, length, slice_index, slice_range, take};
ghost use Rattle.aram_core.specs.Memory.{byte_at};
ghost use Rattle.brr_decode.specs.Header.{next_block};
ghost use Rattle.brr_decode.specs.CachedBlocks.{byte_of};
ghost use Rattle.voice_batch.specs.Row.{IsGroup, groups_left, further, kept_row, place_of};

use aram_core::Aram;
use brr_decode::{BrrCache, next_block};
use num_fix::BATCH_SIZE;
use voice_unit::Voice;

/// The samples of a row of kept samples: the twelve of a voice, four of each group that a batch reads at most, and those of the three groups that can
/// follow in the last one's block.
pub(crate) const ROW_SIZE: usize = 12 + 4 * BATCH_SIZE + 12;

/// Where a group stands.
#[derive(Clone, Copy)]
pub(crate) struct Place {
    /// The address of its block.
    pub block: u16,
    /// Its offset in the block.
    pub offset: u8,
}

/// The group that a voice reads next.
pub(crate) fn place_of(voice: &Voice) -> Place
    ensures value { result ≡ place_of voice.now }
    ensures group { IsGroup result }
{
    Place {
        block: voice.block(),
        offset: voice.offset(),
    }
}

/// Begins a row with the twelve samples of a voice.
pub(crate) fn begin_row(voice: &Voice, row: &mut [i16; ROW_SIZE])
    ensures row { take 12 row.new ≡ voice.now.samples }
    ensures twelve { length voice.now.samples ≡ 12 }
{
    row[..12].copy_from_slice(&voice.samples());
}

/// Lets a voice go on to a position among the last twelve of a row of so many groups, with another group before it.
pub(crate) fn go_to(
    voice: &mut Voice,
    row: &[i16; ROW_SIZE],
    groups: u8,
    position: u16,
    next: Place,
)
    requires few { groups ≤ BATCH_SIZE }
    requires position { position < 0x8000 }
    requires group { IsGroup next }
    ensures { voice.new ≡ record voice.old {
      samples = slice_range row.now (4 * groups) (4 * groups + 12);
      position = position;
      block = next.block;
      offset = next.offset;
    } }
{
    let from = 4 * usize::from(groups);
    voice.go_to(&row[from..from + 12], position, next.block, next.offset);
}

/// How many groups of a block are left from one of them on.
pub(crate) fn groups_left(at: &Place) -> u8
    requires { IsGroup at.now }
    ensures value { result ≡ groups_left at.now }
    ensures some { 0 < result }
    ensures few { result ≤ 4 }
{
    (9 - at.offset) / 2
}

impl Place {
    /// The group that stands so many after this one, in the same block.
    pub(crate) fn further(&self, groups: u8) -> Place
        requires group { IsGroup self.now }
        requires within { groups < groups_left self.now }
        ensures place { result ≡ further self.now groups }
        ensures group { IsGroup result }
    {
        Place {
            block: self.block,
            offset: self.offset + 2 * groups,
        }
    }
}

/// Eight bytes from a place on as one number, the first in the low bits.
fn eight_bytes(bytes: &[u8], at: usize) -> u64
    requires { at + 8 ≤ length bytes.now }
    ensures { (k : ℕ) → k < 8 → byte_of result k ≡ slice_index bytes.now (at + k) }
{
    let low = u64::from(bytes[at])
        + 0x100 * u64::from(bytes[at + 1])
        + 0x10000 * u64::from(bytes[at + 2])
        + 0x1000000 * u64::from(bytes[at + 3]);
    let high = u64::from(bytes[at + 4])
        + 0x100 * u64::from(bytes[at + 5])
        + 0x10000 * u64::from(bytes[at + 6])
        + 0x1000000 * u64::from(bytes[at + 7]);
    low + 0x100000000 * high
}

/// The digits of a block that goes from one page into the next. Out of line, since few do.
#[inline(never)]
fn parted_digits(at: u16, memory: &Aram) -> u64
    ensures { (k : ℕ) → k < 8 → byte_of result k ≡ byte_at memory.now (at + k) }
{
    let bytes = [
        memory.get(at),
        memory.get(at.wrapping_add(1)),
        memory.get(at.wrapping_add(2)),
        memory.get(at.wrapping_add(3)),
        memory.get(at.wrapping_add(4)),
        memory.get(at.wrapping_add(5)),
        memory.get(at.wrapping_add(6)),
        memory.get(at.wrapping_add(7)),
    ];
    eight_bytes(&bytes, 0)
}

/// The eight bytes of digits of a block, the first in the low bits.
fn digit_bytes(block: u16, memory: &Aram) -> u64
    ensures { (k : ℕ) → k < 8 → byte_of result k ≡ byte_at memory.now (block + k + 1) }
{
    let at = block.wrapping_add(1);
    let place = usize::from(at % 0x100);
    if place > 248 {
        return parted_digits(at, memory);
    }
    eight_bytes(memory.page((at / 0x100) as u8), place)
}

/// Puts the kept samples of a group, and of those that follow it in its block, after so many. The header of its block is known.
pub(crate) fn read_rest(
    row: &mut [i16; ROW_SIZE],
    len: usize,
    at: &Place,
    header: u8,
    memory: &Aram,
    blocks: &mut BrrCache,
)
    requires group { IsGroup at.now }
    requires header { header ≡ byte_at memory.now at.now.block }
    requires some { 2 ≤ len }
    requires room { len + 16 ≤ ROW_SIZE }
    ensures { (loop_word groups : ℕ) → groups ≤ groups_left at.now
        → take (len + 4 * groups) row.new ≡ kept_row memory.now loop_word at.now (take len row.old) groups }
{
    let digits = digit_bytes(at.block, memory);
    blocks.read_rest(at.block, header, digits, at.offset / 2, row, len);
}

/// A block, and the header that stands at its start.
#[derive(Clone, Copy)]
pub(crate) struct Headed {
    /// Its address.
    pub block: u16,
    /// Its header.
    pub header: u8,
}

impl Headed {
    /// The block that follows.
    pub(crate) fn next_block(&self, loop_word: u16) -> u16
        ensures { result ≡ next_block self.now.header self.now.block loop_word }
    {
        next_block(self.header, self.block, loop_word)
    }
}
