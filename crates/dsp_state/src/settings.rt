//! What samples read of the registers. They change none of it, so a batch takes it once.

ghost use Rattle.std.specs.Prelude.{◌≡◌, ◌<◌};
ghost use Rattle.dsp_state.specs.Settings.{voice_settings, all_voice_settings, settings_of};

use crate::registers::{
    DIR, FLG, KOFF, NON, PMON, Registers, echo_regs, is_soft_reset, voice_regs,
};
use crate::voice_settings::VoiceSettings;
use crate::volumes::{Volumes, all_volumes};
use echo_unit::EchoRegs;
use num_fix::has_bit;
use voice_unit::is_modulated;

/// What a sample reads.
#[derive(Clone, Copy)]
pub struct Settings {
    pub voices: [VoiceSettings; 8],
    pub volumes: [Volumes; 8],
    /// The page of the directory.
    pub dir: u8,
    /// The soft reset of FLG.
    pub reset: bool,
    /// The rate of the noise, 0 to 31.
    pub noise_rate: u8,
    pub echo: EchoRegs,
}

/// What voice `v` reads beside its volumes.
#[tactic(auto, unfolding(crate::specs::Settings::voice_settings, crate::specs::Registers::voice_regs))]
fn voice_settings(registers: &Registers, v: u8) -> VoiceSettings
    requires { v < 8 }
    ensures { result ≡ voice_settings registers.now v }
{
    VoiceSettings {
        regs: voice_regs(registers, v),
        modulated: is_modulated(registers[PMON], v),
        noisy: has_bit(registers[NON], v),
        koff: has_bit(registers[KOFF], v),
    }
}

/// What each voice reads beside its volumes.
#[tactic(auto, unfolding(crate::specs::Settings::all_voice_settings))]
fn all_voice_settings(r: &Registers) -> [VoiceSettings; 8]
    ensures { result ≡ all_voice_settings r.now }
{
    [
        voice_settings(r, 0),
        voice_settings(r, 1),
        voice_settings(r, 2),
        voice_settings(r, 3),
        voice_settings(r, 4),
        voice_settings(r, 5),
        voice_settings(r, 6),
        voice_settings(r, 7),
    ]
}

/// What samples read of the registers, where some voices are muted. Out of line, so that samples
/// read it in memory and not each part of it again.
#[inline(never)]
#[tactic(auto, unfolding(crate::specs::Settings::settings_of))]
pub fn settings_of(registers: &Registers, muted: u8) -> Settings
    ensures { result ≡ settings_of registers.now muted }
{
    let flg = registers[FLG];
    Settings {
        voices: all_voice_settings(registers),
        volumes: all_volumes(registers, muted),
        dir: registers[DIR],
        reset: is_soft_reset(flg),
        noise_rate: flg % 32,
        echo: echo_regs(registers),
    }
}
