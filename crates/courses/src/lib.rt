//! What the commands of a shard do next, by what they did and what came of it.
#![tactic(auto)]

mod choosing;
mod demands;
mod emergency;
mod external;
mod laws;
mod planned;
mod promoting;
mod walk;
mod want;
mod writing;

pub use demands::{Demand, demand_by};
pub use emergency::emergency_course;
pub use external::external_course;
pub use laws::{
    emergencies_are_played, emergency_is_lawful, examples_are_played, external_is_lawful,
    planned_is_lawful, show_is_lawful, write_is_lawful,
};
pub use planned::planned_course;
pub use walk::{Walk, tried};
pub use want::{Exit, Want};
pub use writing::{show_course, write_course};
