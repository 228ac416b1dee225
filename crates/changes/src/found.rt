use shard_calls::{Content, Reply, Why};

/// What the condition of an event's row has found, where the row goes by it.
#[derive(Drop)]
pub struct Found {
    /// Why the command of a GiveUp may give up its call.
    pub why: Option<Why>,
    /// What the replica of an Offer is offered.
    pub offer: Option<Content>,
    /// What the command of a Tell is told.
    pub told: Option<Reply>,
}
