// What shows of the S-DSP.
ghost use Rattle.std.specs.Prelude.{◌≡◌, ◌<◌, ◌≤◌};
ghost use Rattle.spc_player.specs.Player.{chip_here};
ghost use Rattle.spc_player.specs.Voices.{shown_voice};

use dsp_core::{ChipState, Dsp};
use dsp_state::registers::{OUTX, Registers, voice_register, voice_regs};
use num_fix::sign8;
use player::Player;

/// What shows of a voice once a sample is made, as C lays it out.
#[repr(C)]
#[derive(Clone, Copy, Debug, PartialEq, Eq)]
pub struct ShownVoice {
    /// The level of its envelope, 0 to 2,047.
    pub level: u16,
    /// The pitch of its registers, 0 to 16,383: at 4,096 the sample is played 32,000 numbers a second.
    pub pitch: u16,
    /// The register OUTX, -128 to 127: the high byte of its output, unless the program has written there since.
    pub output: i16,
    /// The number of its sample in the directory, 0 to 255.
    pub source: u16,
}

/// What shows of a voice of a chip.
fn shown_voice(chip: &ChipState, number: u8) -> ShownVoice
    requires { number < 8 }
    ensures shown { result ≡ shown_voice chip.now number }
    ensures bound { result.level ≤ 2047 }
{
    let regs = voice_regs(&chip.registers, number);
    ShownVoice {
        level: chip.hidden.voices[usize::from(number)].level(),
        pitch: regs.pitch,
        output: sign8(voice_register(&chip.registers, number, OUTX)) as i16,
        source: u16::from(regs.srcn),
    }
}

/// The 128 registers of the S-DSP at the position: those that the run's last step before it left.
pub fn registers(player: &Player<Dsp>) -> &Registers
    ensures { result.now ≡ (chip_here player.now).registers }
{
    &player.chip().state().registers
}

/// What shows of a voice, 0 to 7, at the position.
pub fn voice(player: &Player<Dsp>, number: u8) -> ShownVoice
    requires { number < 8 }
    ensures shown { result ≡ shown_voice (chip_here player.now) number }
    ensures bound { result.level ≤ 2047 }
{
    shown_voice(player.chip().state(), number)
}
