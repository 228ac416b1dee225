//! Why commands are refused, who is to be the primary, and whether a command may end with an answer: by what it did and what its calls came
//! to.
#![tactic(auto)]

mod choosing;
mod leaving;
mod rescuing;
mod revoking;
mod table;

pub use choosing::{are_settled, candidates, first_of, follower, outcome_of, push_if};
pub use leaving::{left_by, not_joined, push_entry};
pub use rescuing::{
    ackers_reached, first_stale, heeded, helds, is_reached, rescuer, stale_in, winner_of,
};
pub use revoking::{refusal_of_unrevoked, unreached};
pub use table::{
    is_among, is_in_cell_of, is_of_promotion, recorded_alias, refusal_after, refusal_by_demoted,
    refusal_by_seen, refusal_by_topology, refusal_of_crossing, refusal_of_emergency,
    refusal_of_planned, refusal_of_undeclared, term_of_promoted,
};
