use crate::GtidSet;
use shard_names::Alias;

/// What a tablet answered that it had: the term of the newest row in its log, or 0, and the log's position.
#[derive(Drop)]
pub struct Held {
    pub alias: Alias,
    pub newest: u64,
    pub position: GtidSet,
}
