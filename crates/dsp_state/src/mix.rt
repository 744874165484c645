//! The sums over the voices.

ghost use Rattle.std.specs.Prelude.{◌≡◌, ◌+ℤ◌};
ghost use Rattle.num_fix.specs.Arithmetic.{clamp16, scaled};
ghost use Rattle.dsp_state.specs.Mix.{main_frame, sent_frame};

use crate::volumes::Volumes;
use num_fix::{Frame, clamp16, scaled};
use voice_unit::VoiceOut;

/// The sums of both sides: of all voices, and of those that are sent to the echo.
#[derive(Clone, Copy)]
pub struct Sums {
    pub main: Frame,
    pub sent: Frame,
}

/// The sums over no voices.
pub const SILENT_SUMS: Sums = Sums {
    main: Frame { left: 0, right: 0 },
    sent: Frame { left: 0, right: 0 },
};

/// A sum with an output at a volume, limited to 16 bits.
pub fn with_share(sum: i16, out: i16, volume: i16) -> i16
    ensures { result ≡ clamp16 (sum +ℤ scaled out volume 7) }
{
    clamp16(i32::from(sum) + scaled(out, volume, 7))
}

/// Adds the shares of a voice. The four sums have one form, so that they are added to as one vector.
fn add_voice(sums: &mut Sums, out: i16, volumes: &Volumes)
    ensures main_left { sums.new.main.left ≡ clamp16 (sums.old.main.left +ℤ scaled out volumes.now.left 7) }
    ensures main_right { sums.new.main.right ≡ clamp16 (sums.old.main.right +ℤ scaled out volumes.now.right 7) }
    ensures sent_left { sums.new.sent.left ≡ clamp16 (sums.old.sent.left +ℤ scaled out volumes.now.sent_left 7) }
    ensures sent_right { sums.new.sent.right ≡ clamp16 (sums.old.sent.right +ℤ scaled out volumes.now.sent_right 7) }
{
    sums.main.left = with_share(sums.main.left, out, volumes.left);
    sums.main.right = with_share(sums.main.right, out, volumes.right);
    sums.sent.left = with_share(sums.sent.left, out, volumes.sent_left);
    sums.sent.right = with_share(sums.sent.right, out, volumes.sent_right);
}

/// Puts the sums of both sides over all voices. It is out of line and puts them one by one, since only
/// where they go to memory are the four sums made as one vector.
#[inline(never)]
pub fn sum_voices(sums: &mut Sums, volumes: &[Volumes; 8], answers: &[VoiceOut; 8])
    ensures main { sums.new.main ≡ main_frame volumes.now answers.now }
    ensures sent { sums.new.sent ≡ sent_frame volumes.now answers.now }
{
    let mut total = SILENT_SUMS;
    for v in 0..8 {
        add_voice(&mut total, answers[v].out, &volumes[v]);
    }
    sums.main.left = total.main.left;
    sums.main.right = total.main.right;
    sums.sent.left = total.sent.left;
    sums.sent.right = total.sent.right;
}
