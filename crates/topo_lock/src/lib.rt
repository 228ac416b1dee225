//! The topology of a shard: its lock with terms, the intents, the record of the primary and the marks of drained tablets.
//!
//! Competing reparents are kept apart by a lock with terms, as in Vitess's topology. Each take of the lock raises the term. A
//! holder whose lock has lapsed is found out by its old term, and a term can intend one alias alone.
#![tactic(auto)]

mod intent;
mod laws;
mod lock;
mod mark;
mod topo;

pub use intent::{Intent, Record};
pub use laws::{
    intent_stays, intents_are_in_order, lost_lock_stays_lost, mark_stays, marks_are_in_order,
    one_intent_a_term, other_terms_intend_nothing, past_terms_are_settled, term_rises,
};
pub use lock::{Holder, LockTaken, TopoFault};
pub use topo::Topo;
