//! What each row of the step table changes in the fields of a shard, and what it replies.
#![tactic(auto)]

mod acts;
mod beginning;
mod calls;
mod delivery;
mod found;
mod laws;
mod lock;
mod network;
mod rows;
mod tablets;
mod writes;

pub use found::Found;
pub use laws::{
    fields_go_on_fitting, group_stays, messages_stay_sound, no_row_reads_past, numbers_stay_few,
};
pub use lock::seen_in;
pub use rows::change;
