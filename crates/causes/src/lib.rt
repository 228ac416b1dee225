//! Whether a command may end with an answer: by what it did and what its calls came to.
#![tactic(auto)]

mod emergency;
mod external;
mod opening;
mod planned;
mod undoing;
mod watching;

pub use emergency::has_emergency_cause;
pub use external::has_external_cause;
pub use opening::{has_shard_cause, has_show_cause, has_tablets_cause, has_write_cause};
pub use planned::has_planned_cause;
pub use watching::has_vtorc_cause;
