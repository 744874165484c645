//! Laws of the envelope, which moves as the document says in words: how it rises and falls, and how long that takes.
#![tactic(auto)]

mod laws;

pub use laws::{
    a_gain_sets_or_slopes_the_level, a_release_falls_to_nothing, a_rise_takes_so_many_samples,
    attack_rises, decay_and_sustain_fall, the_level_stays_within_its_bounds,
};
