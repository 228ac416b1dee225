//! The machine of one shard: it makes one step at a time, by the step table, and keeps the history of its steps.
#![tactic(auto)]

mod conditions;
mod ending;
mod finding;
mod opening;
mod room;
mod shard;
mod spares;

pub use shard::{MOST_NOTES, MOST_STEPS, Refused, Shard};
pub use shard_calls::Halt;
