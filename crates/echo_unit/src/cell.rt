// The cells of the echo buffer.
ghost use Rattle.std.specs.Prelude.{◌≡◌, ◌+◌, ◌*◌, ◌%◌};
ghost use Rattle.echo_unit.specs.Echo.{cell_address, halved_word, cell_pair, with_word, with_cell};

use aram_core::{Aram, PAGE_BYTES};
use num_fix::{Frame, half};

/// The address of the cell at an offset of the buffer.
pub fn cell_address(esa: u8, offset: u16) -> u16
    ensures { result ≡ cell_address esa offset }
{
    (u16::from(esa) * PAGE_BYTES).wrapping_add(offset)
}

/// The word at an address, read with a sign and halved.
#[tactic(auto, unfolding(crate::specs::Echo::halved_word))]
fn halved_word(memory: &Aram, address: u16) -> i16
    ensures { result ≡ halved_word memory.now address }
{
    half(memory.word(address).cast_signed())
}

/// The pair that a step reads from its cell.
#[tactic(auto, unfolding(crate::specs::Echo::cell_pair))]
pub fn cell_pair(memory: &Aram, address: u16) -> Frame
    ensures { result ≡ cell_pair memory.now address }
{
    Frame {
        left: halved_word(memory, address),
        right: halved_word(memory, address.wrapping_add(2)),
    }
}

/// Puts a signed word, low byte first.
#[tactic(auto, unfolding(crate::specs::Echo::with_word))]
fn put_word(memory: &mut Aram, address: u16, word: i16)
    ensures { memory.new ≡ with_word memory.old address word }
{
    let bits = word.cast_unsigned();
    memory.put(address, (bits % 256) as u8);
    memory.put(address.wrapping_add(1), (bits / 256) as u8);
}

/// Puts both words of a cell.
#[tactic(auto, unfolding(crate::specs::Echo::with_cell))]
pub fn put_cell(memory: &mut Aram, address: u16, left: i16, right: i16)
    ensures { memory.new ≡ with_cell memory.old address left right }
{
    put_word(memory, address, left);
    put_word(memory, address.wrapping_add(2), right);
}
