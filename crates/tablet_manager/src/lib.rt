//! One tablet of a shard: its log, what it has promised, what it does, and what others acknowledged to it.
#![tactic(auto)]

mod manager;
mod plain_log;
mod replica;
#[cfg(test)]
mod tests;

pub use manager::Manager;
pub use plain_log::PlainLog;
pub use shard_calls::{Accepted, Restarted, Written};
