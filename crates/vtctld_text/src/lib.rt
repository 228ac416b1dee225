//! The texts of the answers of a history.
#![tactic(auto)]

mod answer;
mod begun;
mod history;
mod laws;
mod note;
mod summary;
#[cfg(test)]
mod summary_tests;
#[cfg(test)]
mod tests;
mod watch;

pub use answer::{write_answer, write_command};
pub use begun::Begun;
pub use history::{command_at, commands_of, has_refusal, has_refusal_with, text_of, text_with};
pub use laws::{each_note_is_printed_once, without_notes_is_text_of};
pub use note::{RefusedAction, action_line};
pub use summary::write_summary;
