//! The 128 registers by their names (Anomie's S-DSP Doc, "DSP Register Map"), and what is read of them.

ghost use Rattle.std.specs.Prelude.{◌≡◌, ◌<◌, ◌+◌, ◌*◌, map, slice_index};
ghost use Rattle.std.specs.List.{range_with_len};
ghost use Rattle.dsp_state.specs.Registers.{is_soft_reset, voice_register, voice_regs, echo_regs};

use echo_unit::EchoRegs;
use num_fix::has_bit;
use voice_unit::VoiceRegs;

// The registers of voice v stand at 16 times v and these.

/// The volume on the left side, signed.
pub const VOLL: usize = 0;

/// The volume on the right side, signed.
pub const VOLR: usize = 1;

/// The low 8 bits of the pitch.
pub const PITCHL: usize = 2;

/// The high 6 bits of the pitch.
pub const PITCHH: usize = 3;

/// The number of the voice's sample in the directory.
pub const SRCN: usize = 4;

/// Bit 7: ADSR rules, else GAIN; bits 6 to 4 the decay, bits 3 to 0 the attack.
pub const ADSR1: usize = 5;

/// Bits 7 to 5 the level at which decay ends, bits 4 to 0 the rate of sustain.
pub const ADSR2: usize = 6;

/// The level, or its slope, where ADSR does not rule.
pub const GAIN: usize = 7;

/// The level over 16.
pub const ENVX: usize = 8;

/// The high byte of the output.
pub const OUTX: usize = 9;

// The coefficient Ci of the echo's filter stands at 16 times i and this.

/// A coefficient of the filter, signed.
pub const FIR: usize = 0x0f;

/// The main volume on the left side, signed.
pub const MVOLL: usize = 0x0c;

/// The echo's feedback, signed.
pub const EFB: usize = 0x0d;

/// The main volume on the right side, signed.
pub const MVOLR: usize = 0x1c;

/// The echo's volume on the left side, signed.
pub const EVOLL: usize = 0x2c;

/// The voices whose pitch is changed by the voice before.
pub const PMON: usize = 0x2d;

/// The echo's volume on the right side, signed.
pub const EVOLR: usize = 0x3c;

/// The voices that play noise.
pub const NON: usize = 0x3d;

/// The voices that are to be keyed on.
pub const KON: usize = 0x4c;

/// The voices that are sent to the echo.
pub const EON: usize = 0x4d;

/// The voices that are keyed off.
pub const KOFF: usize = 0x5c;

/// The page of the directory.
pub const DIR: usize = 0x5d;

/// Bit 7 the soft reset, bit 6 mute, bit 5 echo writes off, bits 4 to 0 the rate of the noise.
pub const FLG: usize = 0x6c;

/// The page at which the echo's buffer begins.
pub const ESA: usize = 0x6d;

/// The voices that came to the end of a block that has its end bit. Any write clears it.
pub const ENDX: usize = 0x7c;

/// The length of the echo's buffer in units of 2,048 bytes, in the low 4 bits.
pub const EDL: usize = 0x7d;

/// All registers.
pub type Registers = [u8; 128];

/// Whether FLG holds all voices silent and released: the soft reset.
pub fn is_soft_reset(flg: u8) -> bool
    ensures { result ≡ is_soft_reset flg }
{
    has_bit(flg, 7)
}

/// A register of voice `v`.
pub fn voice_register(registers: &Registers, v: u8, register: usize) -> u8
    requires voice { v < 8 }
    requires register { register < 16 }
    ensures { result ≡ voice_register registers.now v register }
{
    registers[16 * usize::from(v) + register]
}

/// What voice `v` reads of its registers.
#[tactic(auto, unfolding(crate::specs::Registers::voice_regs))]
pub fn voice_regs(registers: &Registers, v: u8) -> VoiceRegs
    requires { v < 8 }
    ensures value { result ≡ voice_regs registers.now v }
    ensures pitch { result.pitch < 0x4000 }
{
    let low = u16::from(voice_register(registers, v, PITCHL));
    let high = u16::from(voice_register(registers, v, PITCHH));
    VoiceRegs {
        pitch: low + 0x100 * (high % 0x40),
        srcn: voice_register(registers, v, SRCN),
        adsr1: voice_register(registers, v, ADSR1),
        adsr2: voice_register(registers, v, ADSR2),
        gain: voice_register(registers, v, GAIN),
    }
}

/// The coefficients of the echo's filter.
fn coefficients(r: &Registers) -> [u8; 8]
    ensures { result ≡ map (λ i. slice_index r.now (16 * i + FIR)) (range_with_len 0 8) }
{
    [
        r[0x0f], r[0x1f], r[0x2f], r[0x3f], r[0x4f], r[0x5f], r[0x6f], r[0x7f],
    ]
}

/// What the echo reads.
#[tactic(auto, unfolding(crate::specs::Registers::echo_regs))]
pub fn echo_regs(registers: &Registers) -> EchoRegs
    ensures { result ≡ echo_regs registers.now }
{
    EchoRegs {
        esa: registers[ESA],
        edl: registers[EDL],
        flg: registers[FLG],
        efb: registers[EFB],
        mvol_l: registers[MVOLL],
        mvol_r: registers[MVOLR],
        evol_l: registers[EVOLL],
        evol_r: registers[EVOLR],
        fir: coefficients(registers),
    }
}
