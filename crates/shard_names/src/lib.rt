//! The names of a shard's parts, and its tablets.
#![tactic(auto)]

mod alias;
mod shard_name;
mod tablet;

pub use alias::{Alias, Cell, NameFault};
pub use shard_name::{Label, ShardName};
pub use tablet::{Name, PromotionRule, Tablet, TabletType};
