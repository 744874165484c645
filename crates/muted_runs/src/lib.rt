//! Laws of whole runs, whose sound depends neither on the volumes of muted voices nor on which voices are traced.
#![tactic(auto)]

mod laws;

pub use laws::{
    tracing_is_not_heard, volumes_of_muted_voices_are_not_heard, watching_changes_nothing,
    what_is_hidden_is_noted_alone, what_is_shown_is_not_noted,
};
