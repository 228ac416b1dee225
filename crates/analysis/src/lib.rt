//! What is amiss with the tablets of a shard, by what they said of themselves, and what came of the repairs.
#![tactic(auto)]

mod findings;
mod repairs;
mod reparents;
mod rows;
mod statuses;
mod table;

pub use findings::{
    finds_orphaned, finds_to_repair, finds_urgent, is_errant, is_problem, problems, to_repair,
};
pub use repairs::{joined_or_left, lines_beside};
pub use reparents::{forced, plain};
pub use rows::{row_of, rows_of};
pub use statuses::{push_statuses, status_of, statuses_of, statuses_of_both};
pub use table::{analyse, findings_by, findings_of};

#[cfg(test)]
mod expected;
#[cfg(test)]
mod tests;
