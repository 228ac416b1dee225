//! What the commands of a shard do next: the course of every command, and the one of a `vtorc`, which looks at what is amiss and does about it the
//! first thing that helps.
#![tactic(auto)]

mod course;
mod laws;
mod repairs;
mod watch;

pub use course::{demand, play};
pub use laws::{
    command_leaves_for_good, emergency_undoes_nothing, vtorc_is_lawful, watches_are_played,
};
pub use watch::watch_course;
