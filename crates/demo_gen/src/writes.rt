// The writes of registers that the driver makes.
ghost use Rattle.std.specs.Prelude.{◌≡◌, IfOk, OnOk};
ghost use Rattle.demo_gen.specs.Draws.{state_after};
ghost use Rattle.demo_gen.specs.Places.{with_part};
ghost use Rattle.demo_gen.specs.Writes.{register, value, registers, values};

use crate::OutOfMemory;
use crate::draws::{drawn_byte, next_state};

/// Which register: in turn KON, and PITCHH, SRCN and VOLL of a voice.
fn register(turn: usize, byte: u8) -> u8
    ensures { result ≡ register turn byte }
{
    let voice = 0x10 * (byte % 8);
    [0x4C, voice + 3, voice + 4, voice][turn % 4]
}

/// Which value.
fn value(turn: usize, byte: u8) -> u8
    ensures { result ≡ value turn byte }
{
    [byte, byte % 0x20, byte % 8, byte][turn % 4]
}

/// Puts the registers into the file: of each two draws the first one says which.
#[tactic(auto, unfolding(crate::specs::Places::with_part))]
pub fn put_registers(file: &mut Vec<u8>, place: usize, state: u32) -> Result<(), OutOfMemory>
    ensures { OnOk result (file.new.items ≡ with_part file.old.items place (registers state)) }
{
    file.resize(place, 0)?;
    let mut after = state;
    for turn in 0..256 {
        let first = next_state(after);
        file.push(register(turn, drawn_byte(first)))?;
        after = next_state(first);
    }
    Ok(())
}

/// Puts the values into the file: of each two draws the second one says which. Gives the state after all of them.
#[tactic(auto, unfolding(crate::specs::Places::with_part))]
pub fn put_values(file: &mut Vec<u8>, place: usize, state: u32) -> Result<u32, OutOfMemory>
    ensures bytes { OnOk result (file.new.items ≡ with_part file.old.items place (values state)) }
    ensures state { IfOk result (λ after. after ≡ state_after 512 state) }
{
    file.resize(place, 0)?;
    let mut after = state;
    for turn in 0..256 {
        after = next_state(next_state(after));
        file.push(value(turn, drawn_byte(after)))?;
    }
    Ok(after)
}
