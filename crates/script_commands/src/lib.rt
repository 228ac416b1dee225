//! The commands of a script: what the words of a command say, with their numbers, durations and options; and other single words.
#![tactic(auto)]

mod command;
mod law;
mod moment;
mod number;
mod options;
mod parts;
#[cfg(test)]
mod tests;
mod word;

pub use command::{Given, command_of};
pub use law::commands_as_spelled;
pub use moment::{is_moment, read_moment};
pub use number::{is_duration, read_duration, read_number, read_within};
pub use options::{Key, begins_dash, begins_short, behind_short, find_equals, read_key};
pub use parts::parts_of;
pub use word::{policy_named, read_kind, read_name, read_server, read_side};
