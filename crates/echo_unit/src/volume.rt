// Samples at the volumes of registers.
ghost use Rattle.std.specs.Prelude.{◌≡◌, ◌≤◌, unsigned_abs};
ghost use Rattle.num_fix.specs.Arithmetic.{sign8};
ghost use Rattle.echo_unit.specs.Echo.{at_volume, side_output, output_frame, feedback_word};

use crate::EchoRegs;
use crate::flg::is_muted;
use num_fix::{Frame, add_clamped, clear_bit0, scaled, sign8, wrap16};

/// A register, read with a sign.
pub fn signed(byte: u8) -> i16
    ensures value { result ≡ sign8 byte }
    ensures bound { unsigned_abs result ≤ 128 }
{
    sign8(byte) as i16
}

/// A sample times a signed register, over 128.
fn at_volume(sample: i16, volume: u8) -> i16
    ensures { result ≡ at_volume sample volume }
{
    wrap16(scaled(sample, signed(volume), 7))
}

/// The output of one side: its main sum and its echo, each at its volume.
#[tactic(auto, unfolding(crate::specs::Echo::side_output))]
fn side_output(main: i16, main_volume: u8, echo: i16, echo_volume: u8) -> i16
    ensures { result ≡ side_output main main_volume echo echo_volume }
{
    add_clamped(at_volume(main, main_volume), at_volume(echo, echo_volume))
}

/// The word that goes back into the buffer.
#[tactic(auto, unfolding(crate::specs::Echo::feedback_word))]
pub fn feedback_word(sent: i16, echo: i16, efb: u8) -> i16
    ensures { result ≡ feedback_word sent echo efb }
{
    clear_bit0(add_clamped(sent, at_volume(echo, efb)))
}

/// The output frame of the main sums and the echo, 0 while FLG has its mute bit.
#[tactic(auto, unfolding(crate::specs::Echo::output_frame))]
pub fn output_frame(regs: &EchoRegs, main: Frame, echo: Frame) -> Frame
    ensures { result ≡ output_frame regs.now main echo }
{
    if is_muted(regs.flg) {
        Frame { left: 0, right: 0 }
    } else {
        Frame {
            left: side_output(main.left, regs.mvol_l, echo.left, regs.evol_l),
            right: side_output(main.right, regs.mvol_r, echo.right, regs.evol_r),
        }
    }
}
