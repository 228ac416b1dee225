//! Tests on what a command did: whether two things are one, what its calls came to, and whom it promoted.
#![tactic(auto)]

mod calls;
mod copying;
mod equality;
mod lists;
mod promotion;
mod same;
mod watching;

pub use calls::{
    Needed, before_intent, call_refuses, from_taking, is_call, is_intended, is_promoted_answer,
    is_to, topology_refuses,
};
pub use copying::calls_of;
pub use equality::{position_eq, record_or_none_eq, shard_name_eq, standing_eq};
pub use lists::same_row;
pub use promotion::{is_promoted, records_it};
pub use same::{is_this, refusal_eq};
pub use watching::{findings_eq, lines_eq};
