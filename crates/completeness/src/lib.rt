//! What holds of commands in every history, whatever else happens in it: who keeps the shard's lock has it, an
//! emergency that is refused undoes nothing, and a reparent completes that nothing hinders.
#![tactic(auto)]

mod emergency;
mod laws;

pub use emergency::refused_emergency_undoes_nothing;
pub use laws::{emergency_completes, kept_lock_is_held, planned_completes};
