//! Of tablets that stopped, which one is ahead of all, and what each has beyond its new primary.
#![tactic(auto)]

mod ahead;
mod excess;
mod split;

pub use ahead::{find_winner, first_apart, newest};
pub use excess::{Excess, errant_of};
pub use split::{SplitBrain, winner};

#[cfg(test)]
mod tests;
