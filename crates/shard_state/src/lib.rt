//! What one shard keeps: its tablets, its topology, its post and its commands, and what can be read off them.
#![tactic(auto)]

mod actors;
mod copies;
mod declared;
mod evidence;
mod fields;
mod group;
mod locks;
mod lookups;
mod outcomes;
mod sends;
mod spans;
mod tablets;
mod times;
mod writes;

pub use actors::{open_of, place_of};
pub use declared::{is_declared, is_eligible_alias, is_link, names_declared};
pub use evidence::has_evidence;
pub use fields::Fields;
pub use group::group_of;
pub use locks::{intends, is_alias_of, is_first, may_record, took_nothing};
pub use lookups::{open_command, term_of};
pub use sends::may_send;
pub use spans::span_of;
pub use tablets::{find_manager, is_down, manager_of, tablet_of};
pub use times::{is_in_time, may_tick, timeout_of};
pub use writes::may_write;
