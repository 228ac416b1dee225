use shard_names::{Alias, Name};
use thiserror::Error;

/// Who holds the lock: a command by its number, and the actor who gave it.
#[derive(Clone, Copy, Debug, PartialEq, Eq)]
pub struct Holder {
    pub command: u64,
    pub actor: Name,
}

/// The lock is held already, in this term, by a command of this actor.
#[derive(Clone, Copy, Debug, PartialEq, Eq, Error)]
#[error("the lock is held in term {term}")]
pub struct LockTaken {
    pub term: u64,
    pub actor: Name,
}

/// Why a call of one who took the lock is refused.
#[derive(Clone, Copy, Debug, PartialEq, Eq, Error)]
pub enum TopoFault {
    /// The lock is no longer held in the caller's term. `current` is the term that the topology is at.
    #[error("the lock is lost, and the topology at term {current}")]
    LockLost { current: u64 },
    /// The caller's term intends another alias, this one.
    #[error("the term intends another tablet")]
    IntentStands { alias: Alias },
}
