// A handle may go to another thread.
ghost use Rattle.std.specs.Thread.{IsSend};
ghost use Rattle.player_c.specs.contracts.handle.SpcwavePlayer.{the_row};

use crate::handle::SpcwavePlayer;

/// A handle may go to another thread, with the player that it owns: this is proved of all parts of its type.
pub fn a_handle_may_go_to_another_thread(_handle: &SpcwavePlayer)
    ensures { IsSend the_row }
{}
