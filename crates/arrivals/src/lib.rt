//! What comes next of itself in a shard: which messages come to their receivers, which calls are given up, and what a source sends.
#![tactic(auto)]

mod due;
mod feeding;
mod giving_up;
mod laws;
mod links;
mod offers;
mod receivers;
#[cfg(test)]
mod tests;

pub use due::deliverable;
pub use giving_up::why_given_up;
pub use laws::{messages_stay_addressed, offers_are_addressed};
pub use links::{is_cut, link_between, link_eq, link_of, link_to};
pub use offers::{offer_to, offerable};
pub use receivers::{is_deliverable, may_arrive};
