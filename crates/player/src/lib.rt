//! A player of a tune, for programs that link it: over a server of its cuts it plays, seeks and marks, and shows the chip. No chip is named
//! here, and none is made: the one that plays is that of the server. Only what opens it takes memory.
#![tactic(auto)]

mod laws;
mod output;
mod own_marks;
mod player;
mod threads;

pub use laws::what_was_heard_is_near;
pub use output::{StereoFrame, put_text};
pub use own_marks::MAX_MARK_SECONDS;
pub use player::Player;
pub use threads::a_player_may_go_to_another_thread;
