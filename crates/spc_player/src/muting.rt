// The muted voices of an open player.
ghost use Rattle.spc_player.specs.Inputs.{IsMuted};

use dsp_core::Dsp;
use player::Player;

/// Mutes these voices from now on and no others, bit v is voice v: the player is as one that was opened with them and sought to its position. It
/// makes the frames before that once more, and only the mark of frame 0 is left.
pub fn mute(player: &mut Player<Dsp>, muted: u8)
    ensures { IsMuted muted player.old player.new }
{
    let chip = player.opening_chip().with_muted(muted);
    player.restart(chip);
}
