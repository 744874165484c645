// A player on the S-DSP may go to another thread.
ghost use Rattle.std.specs.Thread.{IsSend};
ghost use Rattle.spc_player.specs.Player.{player_row};

use dsp_core::Dsp;
use player::Player;

/// A player on the S-DSP may go to another thread: this is proved of all parts of its type.
pub fn an_spc_player_may_go_to_another_thread(_player: &Player<Dsp>)
    ensures { IsSend player_row }
{}
