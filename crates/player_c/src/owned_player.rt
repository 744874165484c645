// The part of a handle that keeps the player.
ghost use Rattle.std.specs.Prelude.{Option};
ghost use Rattle.std.specs.Coded.{coded_option};
ghost use Rattle.spc_player.specs.Player.{SpcPlayer, player_row};

use std::marker::Model;

/// A pointer to a player on the heap, or any pointer where there is none.
#[repr(C)]
#[derive(Drop)]
pub struct OwnedPlayer {
    pub(crate) at: *mut u8,
    pub ghost playing: { Option SpcPlayer } by { coded_option player_row.coded },
}

impl Model for OwnedPlayer {
    ghost use Rattle.player_c.specs.Owned.{owns_playing};

    ghost also_owns = { λ e. owns_playing e.at e.playing };
}

// What it owns may go to another thread, as its proof shows.
unsafe impl Send for OwnedPlayer {}
