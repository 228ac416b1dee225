//! What a command does next, by the walk of its course along what it did; and that it can always do it.
#![tactic(auto)]

mod doing;
mod going;
mod laws;
mod leaving;
mod timing;
mod waiting;

pub use going::next;
pub use laws::{
    actors_fit, commands_keep_to_courses, course_is_met, courses_are_own, leaving_is_met,
    leaving_is_quiet, next_is_met, none_blocks, waits_end_in_time,
};
pub use leaving::leaves;
