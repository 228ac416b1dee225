//! The text of a history: what the script declares, and a line for each step.
#![tactic(auto)]

mod declaration;
#[cfg(test)]
mod ending_tests;
mod event;
mod history;
mod laws;
mod order;
#[cfg(test)]
mod order_tests;
mod reply;
#[cfg(test)]
mod tests;

pub use history::{append_opening, append_step};
pub use laws::{
    line_tells_event, line_tells_reply, names_read_back, pieces_are_the_whole, step_is_one_line,
};
