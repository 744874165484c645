// What a player is opened with beside its tune.
ghost use Rattle.std.specs.Prelude.{◌≡◌};
ghost use Rattle.spc_player.specs.Options.{are_in_range};

use cut_form::PAGE_COUNT;
use page_pool::MAX_PAGES;
use player::MAX_MARK_SECONDS;

/// What a player is opened with beside its tune.
#[derive(Clone, Copy, Debug, PartialEq, Eq)]
pub struct PlayerOptions {
    /// The pages of 256 bytes that it has for its marks, 256 to 65,536: the mark of frame 0, which always stays, takes 256, and each
    /// other as many as hold other bytes than in the mark before.
    pub pages: u32,
    /// The seconds between the marks that it takes by itself while it plays, at most 3,600; 0 for none.
    pub mark_seconds: u32,
    /// The voices that are muted: bit v is voice v.
    pub muted: u8,
}

impl PlayerOptions {
    /// Whether pages and seconds are in their ranges.
    pub fn are_in_range(&self) -> bool
        ensures { result ≡ are_in_range self.now }
    {
        self.pages >= PAGE_COUNT as u32
            && self.pages <= MAX_PAGES
            && self.mark_seconds <= MAX_MARK_SECONDS
    }
}
