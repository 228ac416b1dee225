//! The messages of one shard, with what waits, for each receiver and on each way, and the answers to each call at hand.
#![tactic(auto)]

mod beside;
mod change;
mod direction;
mod laws;
mod messages;
mod queue;
#[cfg(test)]
mod tests;

pub use laws::{answers_are_exact, inbox_is_exact, waiting_is_exact};
pub use messages::Post;
pub use queue::Queue;
