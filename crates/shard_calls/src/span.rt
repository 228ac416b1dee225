//! What a command did, and what came of it.

ghost use Rattle.std.specs.Prelude.{◌≡◌};
ghost use Rattle.shard_calls.specs.Kinds.{kind_of};

use crate::{Answer, Call, Seen, Standing, Why};
use gtid_sets::Gtid;
use shard_names::Alias;
use topo_lock::LockTaken;

/// A kind of call.
#[derive(Clone, Copy, Debug, PartialEq, Eq)]
pub enum Kind {
    Status,
    Stop,
    Demote,
    Promote,
    SetSource,
    Feed,
    WaitFor,
    WaitTold,
}

impl Kind {
    /// The kind of the call.
    pub fn of(call: &Call) -> Kind
        ensures { result ≡ kind_of call.now }
    {
        match call {
            Call::Status => Kind::Status,
            Call::Stop => Kind::Stop,
            Call::Demote => Kind::Demote,
            Call::Promote { .. } => Kind::Promote,
            Call::SetSource { .. } => Kind::SetSource,
            Call::Feed => Kind::Feed,
            Call::WaitFor { .. } => Kind::WaitFor,
            Call::WaitTold { .. } => Kind::WaitTold,
        }
    }
}

/// What a call came to.
#[derive(Drop)]
pub enum Outcome {
    /// The tablet answered this.
    Answered { answer: Answer },
    /// The command waits for it no longer.
    GivenUp { why: Why },
}

/// A call that was sent: its number and its term, when it was sent and first came to its tablet, and what it came to. Moments are in
/// milliseconds since the start of 1970; where the call has not come to its tablet, the second is 0.
#[derive(Drop)]
pub struct Asked {
    pub alias: Alias,
    pub kind: Kind,
    pub message: u64,
    pub term: u64,
    pub sent: u64,
    pub arrived: u64,
    pub outcome: Option<Outcome>,
}

/// What a tablet wrote for a command, and the term in which it was the primary.
#[derive(Clone, Copy, PartialEq, Eq)]
pub struct Transaction {
    pub gtid: Gtid,
    pub term: u64,
}

/// What a command did, and what it was replied. Where the lock was lost, the reply is the topology's term.
#[derive(Drop)]
pub enum Deed {
    Took {
        reply: Result<u64, LockTaken>,
    },
    Read {
        reply: Result<Seen, u64>,
    },
    Intended {
        alias: Alias,
        reply: Result<(), u64>,
    },
    Recorded {
        alias: Alias,
        reply: Result<(), u64>,
    },
    Drained {
        alias: Alias,
        reply: Result<(), u64>,
    },
    Asked {
        asked: Asked,
    },
    Wrote {
        alias: Alias,
        reply: Result<Transaction, Standing>,
    },
    /// Its entry counts as committed, or its tablet is no longer the primary of that term.
    Told {
        committed: bool,
    },
}
