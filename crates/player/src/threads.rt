// A player may go to another thread.
ghost use Rattle.std.specs.Thread.{IsSend};
ghost use Rattle.player.specs.contracts.player.Player.{the_row};

use crate::Player;
use chip_form::Chip;

/// A player may go to another thread where its chip may, and what is saved of one: this is proved of all parts of a player's type.
pub fn a_player_may_go_to_another_thread<C: Chip + Send>(_player: &Player<C>)
where
    C::Saved: Send,
    ensures { IsSend (the_row C.row C.State.row C.Saved.row C.Chip) }
{}
