//! What holds of every history of a shard, whatever its durability policy.
#![tactic(auto)]

mod laws;
mod network;

pub use laws::{
    emergency_revokes, every_history_is_safe, leader_complete, log_closed, promotes_on_grounds,
    rows_are_moves, sites_are_shown, told_is_voted, votes_answered, worked_grounds,
};
pub use network::{
    answers_are_shown, cuts_are_as_said, give_up_names_the_first, lapsed_is_free, marks_stay,
    no_acks_after, nothing_crosses_a_cut, nothing_lost_comes, promotion_covers, set_source_again,
    who_is_down_hears_nothing, write_numbers_have_no_gaps,
};
