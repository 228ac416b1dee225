use durability::Durability;
use post::Post;
use shard_calls::{ActorState, CommandState, Link};
use std::alloc::Global;
use tablet_manager::Manager;
use topo_lock::Topo;

/// What stands at a moment, as a shard keeps it. Contracts see it by `data_of`.
#[derive(Drop)]
pub struct Fields {
    pub alloc: Global,
    /// The tablets, in alias order.
    pub managers: Vec<Manager>,
    /// How many tablets must acknowledge a primary's writes, and which.
    pub policy: Durability,
    /// The moment at which the clock began, in milliseconds since the start of 1970.
    pub moment: u64,
    pub topo: Topo,
    /// All messages ever sent.
    pub post: Post,
    pub clock: u64,
    /// The links that are cut.
    pub cuts: Vec<Link>,
    pub actors: Vec<ActorState>,
    pub commands: Vec<CommandState>,
}
