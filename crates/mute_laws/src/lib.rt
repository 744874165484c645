//! Laws of muting, which takes voices out of the sums and does nothing else.
#![tactic(auto)]

mod laws;

pub use laws::{
    a_chip_with_all_voices_muted_is_silent, muted_voices_go_on, volumes_of_muted_voices_do_nothing,
    without_muted_voices_all_are_heard, writes_leave_the_muted_voices,
};
