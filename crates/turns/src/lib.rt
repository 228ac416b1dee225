//! What a resumable command does a turn at a time, on a floor that shows the steps of others too: once for all courses.
#![tactic(auto)]

mod floor;
mod looking;
mod playing;
mod turn;

pub use floor::{Floor, Halt};
pub use playing::CommandPlay;
pub use turn::{Player, Plays, Turn};
