//! What happens to one shard, whose commands and tablets talk by messages: a replicated MySQL server under Vitess's tablet manager is
//! what a tablet is.
#![tactic(auto)]

mod analysis;
mod answer;
mod call;
mod command;
mod ending;
mod event;
mod group;
mod halt;
mod laws;
mod outcome;
mod post;
mod refusal;
mod run_laws;
mod span;
mod stand;
mod state;
mod why;

pub use analysis::{Analysis, Finding, Snapshot, Status, TabletStatus};
pub use answer::Answer;
pub use call::Call;
pub use command::{Command, EmergencyOptions, PlannedOptions};
pub use ending::{CommandAnswer, Left, NotJoined, Rest, ShownType, TabletRow};
pub use event::{Event, History, Link, Note, Reply, Seen, Side, Step};
pub use group::Group;
pub use halt::Halt;
pub use laws::{
    log_only_grows, promise_never_falls, refusal_changes_seen_alone, rows_are_promised,
    seen_never_falls, stale_term_is_refused, steps_are_moves, worked_analyses,
};
pub use outcome::{Accepted, Restarted, Written};
pub use post::{Content, Message, Settled};
pub use refusal::{Bar, NotStopped, Reason, Refusal, Rejected, Unacked, Unreached};
pub use run_laws::{
    acknowledged_is_held, each_answer_has_its_cause, each_step_is_a_move,
    each_transaction_is_one_entry, logs_are_closed, logs_grow_at_their_ends, one_intent_in_a_term,
    one_promotion_in_a_term, tablets_stay_sound, term_of_topology_never_falls, told_is_accepted,
    told_is_kept,
};
pub use span::{Asked, Deed, Kind, Outcome, Transaction};
pub use stand::{Stand, Standing};
pub use state::{Act, ActorState, CommandState, Opening, Shown, Wrote};
pub use why::Why;
