use crate::{Command, Seen, Stand, Standing};
use gtid_sets::{Gtid, GtidSet};
use shard_base::Items;
use shard_names::{Alias, Name};
use topo_lock::LockTaken;

/// Who gives commands: the pending one by its number, and how many writes it has begun.
#[derive(Clone, Copy)]
pub struct ActorState {
    pub name: Name,
    pub pending: Option<u64>,
    pub writes: u64,
}

/// What a command did, in order, with what it was replied. Where the lock was lost, the reply is the topology's term.
#[derive(Drop)]
pub enum Act {
    /// It took the lock in this term, or found it held.
    Took {
        reply: Result<u64, LockTaken>,
    },
    /// It read this of the topology.
    Read {
        reply: Result<Seen, u64>,
    },
    /// It said that it is to promote the tablet.
    Intended {
        alias: Alias,
        reply: Result<(), u64>,
    },
    /// It recorded the tablet.
    Recorded {
        alias: Alias,
        reply: Result<(), u64>,
    },
    /// It marked the tablet as drained.
    Drained {
        alias: Alias,
        reply: Result<(), u64>,
    },
    /// It sent the call with this number.
    Sent {
        message: u64,
    },
    /// The tablet was to write its entry: it did, or it does not take it, since it stands so.
    Wrote {
        alias: Alias,
        reply: Result<Gtid, Standing>,
    },
    /// Its entry counts as committed, or the tablet is no longer the primary of the term in which it wrote it.
    Told {
        committed: bool,
    },
}

/// What a command wrote, where and in which term, and its index in the tablet's log.
#[derive(Clone, Copy)]
pub struct Wrote {
    pub gtid: Gtid,
    pub alias: Alias,
    pub term: u64,
    pub index: u64,
}

/// How a tablet stood, and the position of its log.
#[derive(Drop)]
pub struct Shown {
    pub stand: Stand,
    pub position: GtidSet,
}

/// What stood right after a command began.
#[derive(Drop)]
pub struct Opening {
    /// The record of the primary, the last intent and the drained marks.
    pub seen: Seen,
    /// What a `show` was to show.
    pub shown: Option<Shown>,
}

/// A command that has begun.
#[derive(Drop)]
pub struct CommandState {
    pub command: Command,
    pub actor: Name,
    /// The place of its actor among the actors.
    pub client: u32,
    /// How many writes its actor had begun with it.
    pub number: u64,
    pub opening: Opening,
    /// The term in which it took the lock.
    pub term: Option<u64>,
    /// Whether it has made its Release.
    pub released: bool,
    pub ended: bool,
    pub wrote: Option<Wrote>,
    pub acts: Items<Act>,
}
