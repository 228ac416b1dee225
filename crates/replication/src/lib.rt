//! Which entries of a primary's log count as committed, by what its tablets acknowledged, and which entries a replica takes.
#![tactic(auto)]

mod acks;
mod counting;
mod laws;
mod stream;
#[cfg(test)]
mod tests;

pub use acks::AckTable;
pub use laws::{
    ack_of_no_acker_changes_nothing, keeps_the_greatest, lower_is_told, none_tells_all,
    own_ack_changes_nothing, stays_told, told_is_elsewhere,
};
pub use stream::Stream;
