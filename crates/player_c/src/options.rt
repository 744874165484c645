// What C opens a player with beside its tune.
ghost use Rattle.std.specs.Prelude.{◌≡◌};
ghost use Rattle.player_c.specs.Options.{options_of};

use spc_player::PlayerOptions;

/// The size of the options in bytes.
pub(crate) const OPTIONS_SIZE: u32 = 16;

/// What a player is opened with beside its tune, as C lays it out.
#[repr(C)]
#[derive(Clone, Copy, Debug, PartialEq, Eq)]
pub struct SpcwaveOptions {
    /// The size of this struct in bytes, 16, by which a later library knows which fields it has.
    pub size: u32,
    /// The pages, as `PlayerOptions` has them.
    pub pages: u32,
    /// The seconds between the marks that it takes by itself.
    pub mark_seconds: u32,
    /// The voices that are muted: bit v is voice v.
    pub muted: u8,
}

impl SpcwaveOptions {
    /// The options; none where one is out of its range, or the size is another.
    pub(crate) fn options(&self) -> Option<PlayerOptions>
        ensures { result ≡ options_of self.now }
    {
        let options = PlayerOptions {
            pages: self.pages,
            mark_seconds: self.mark_seconds,
            muted: self.muted,
        };
        if self.size == OPTIONS_SIZE && options.are_in_range() {
            Some(options)
        } else {
            None
        }
    }
}
