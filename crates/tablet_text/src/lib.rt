//! The texts of what is known of tablets: moments, stands, refusals, and the JSON of a shard and of its tablets.
#![tactic(auto)]

mod json;
#[cfg(test)]
mod json_tests;
mod moment;
mod number;
mod reason;
mod refusal;
#[cfg(test)]
mod refusal_tests;
mod stand;
#[cfg(test)]
mod tests;

pub use json::{write_shard, write_tablets};
pub use moment::write_moment;
pub use number::write_number;
pub use refusal::write_refusal;
pub use stand::{
    write_in_term, write_left, write_not_joined, write_standing, write_stands, write_why,
};
