use durability::Durability;
use shard_base::Items;
use shard_names::Tablet;

/// The tablets of a shard, in alias order, and its durability policy, which says how many of them must acknowledge a primary's writes, and
/// which. They do not change.
#[derive(Drop)]
pub struct Group {
    pub tablets: Items<Tablet>,
    pub policy: Durability,
}
