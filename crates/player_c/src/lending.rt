// What a handle keeps, lends and gives back.
ghost use Rattle.std.specs.Prelude.{◌≡◌, Some, None, IsSome};
ghost use Rattle.std.specs.Borrow.{sem};
ghost use Rattle.player_c.specs.Lending.{LendsPlayer};

use crate::owned_player::OwnedPlayer;
use crate::parts::Parts;
use dsp_core::Dsp;
use player::Player;
use std::alloc::Global;
use std::ptr::null_mut;

impl OwnedPlayer {
    /// No player, at any address.
    fn at_nothing(at: *mut u8) -> OwnedPlayer
        ensures { result.playing ≡ None }
    {
        OwnedPlayer { at }
    }

    /// No player.
    pub fn none() -> OwnedPlayer
        ensures { result.playing ≡ None }
    {
        let at = null_mut();
        OwnedPlayer::at_nothing(at)
    }

    /// Keeps what a box owns.
    fn put_parts(&mut self, player: Parts<Player<Dsp>, Global>)
        requires { self.old.playing ≡ None }
        ensures { self.new.playing ≡ Some player.value }
    {
        let Parts { ptr, alloc: _ } = player;
        self.at = ptr as *mut u8;
    }

    /// Gives back what the box of the player owned.
    fn take_parts(&mut self, alloc: Global) -> Parts<Player<Dsp>, Global>
        requires { IsSome self.old.playing }
        ensures player { Some result.value ≡ self.old.playing }
        ensures none { self.new.playing ≡ None }
    {
        let ptr = self.at as *mut Player<Dsp>;
        Parts { ptr, alloc }
    }

    /// Keeps a player.
    pub fn put(&mut self, player: Box<Player<Dsp>>)
        requires { self.old.playing ≡ None }
        ensures { self.new.playing ≡ Some player.value }
    {
        self.put_parts(Parts::of(player));
    }

    /// Takes the player back.
    pub fn take(&mut self, alloc: Global) -> Box<Player<Dsp>>
        requires { IsSome self.old.playing }
        ensures player { Some result.value ≡ self.old.playing }
        ensures none { self.new.playing ≡ None }
    {
        self.take_parts(alloc).into_box()
    }

    /// Lends the player.
    pub fn player(&mut self) -> &mut Player<Dsp>
        requires { IsSome self.old.playing }
        ensures* writes_back { sem 𝓛 (LendsPlayer self.entry result) }
        ensures player { Some result.now ≡ self.old.playing }
    {
        let at = self.at as *mut Player<Dsp>;
        unsafe { &mut *at }
    }
}
