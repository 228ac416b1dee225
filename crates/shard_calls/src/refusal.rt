//! Why commands are refused.

use crate::{Standing, Why};
use gtid_sets::GtidSet;
use shard_base::Items;
use shard_names::{Alias, Name};

/// Why a given tablet may not be promoted.
#[derive(Clone, Copy, Debug, PartialEq, Eq)]
pub enum Bar {
    /// The policy's rule for its type is `must_not`.
    MustNot,
    /// It is marked as drained.
    Drained,
    /// The command is to leave it out.
    Ignored,
}

/// Why a tablet is no candidate.
#[derive(Clone, Copy, Debug, PartialEq, Eq)]
pub enum Reason {
    /// The policy's rule for its type is `must_not`.
    MustNot,
    /// It is marked as drained.
    Drained,
    /// The command is to avoid it.
    Avoided,
    /// The command is to leave it out.
    Ignored,
    /// It did not answer.
    Unreached,
    /// It is in another cell than the primary, and may not be promoted for that.
    OtherCell,
    /// It does not replicate from the primary.
    NotReplica,
    /// Too few tablets answered that could acknowledge its writes.
    ShortOfAckers,
}

/// A tablet that is no candidate.
#[derive(Clone, Copy)]
pub struct Rejected {
    pub alias: Alias,
    pub reason: Reason,
}

/// Why an emergency reparent has not stopped a tablet.
#[derive(Clone, Copy, Debug, PartialEq, Eq)]
pub enum Unreached {
    /// The call was given up.
    GivenUp(Why),
    /// The command is to leave it out.
    Ignored,
}

/// A tablet that an emergency reparent has not stopped.
#[derive(Clone, Copy)]
pub struct NotStopped {
    pub alias: Alias,
    pub unreached: Unreached,
}

/// Why a promotion does not count as committed.
#[derive(Clone, Copy, Debug, PartialEq, Eq)]
pub enum Unacked {
    /// Too few tablets have acknowledged it. The call that waits for them was sent at `since`, and came to the tablet at `now`.
    NotTold { since: u64, now: u64 },
    /// The tablet stands so, and not as the primary of the term.
    Kept { stand: Standing },
}

/// Why a command was refused. Moments are in milliseconds since the start of 1970.
#[derive(Drop)]
pub enum Refusal {
    /// The lock is held in this term, by a command of this actor.
    LockTaken {
        term: u64,
        actor: Name,
    },
    /// The lock was lost. The topology is at this term.
    LockLost {
        term: u64,
    },
    /// The alias is not declared.
    NoSuchTablet {
        alias: Alias,
    },
    /// The tablet is declared and may not be promoted.
    NotEligible {
        alias: Alias,
        bar: Bar,
    },
    /// Another primary was expected than this one, which is recorded.
    ExpectedPrimary {
        recorded: Option<Alias>,
    },
    /// A new primary was given, and one to avoid.
    BothGiven,
    /// The tablet was intended in this term, and has not become its primary.
    ReparentPending {
        alias: Alias,
        term: u64,
    },
    /// A call that the command needs was given up.
    Unreachable {
        alias: Alias,
        why: Why,
    },
    /// No tablet can be the primary, each for its reason.
    NoCandidate {
        reasons: Items<Rejected>,
    },
    /// The tablet's log lacks these transactions. The call was sent at `since`, and came to the tablet at `now`.
    NotCaughtUp {
        alias: Alias,
        missing: GtidSet,
        since: u64,
        now: u64,
    },
    /// The tablet has seen a later term than the command's.
    StaleTerm {
        alias: Alias,
        seen: u64,
    },
    /// With the tablets that stopped, this one may still commit writes of an older term. These have not stopped.
    NotRevoked {
        alias: Alias,
        unreached: Items<NotStopped>,
    },
    /// Of the tablets that stopped, so many can acknowledge the new primary's writes, which needs so many.
    CannotEstablish {
        alias: Alias,
        have: u32,
        need: u32,
    },
    /// Of two tablets of the newest term neither has all that the other has.
    SplitBrain {
        a: Alias,
        has_a: GtidSet,
        b: Alias,
        has_b: GtidSet,
    },
    /// The tablet is in another cell than the primary.
    CrossCell {
        alias: Alias,
    },
    /// The tablet's promotion does not count as committed.
    NotAcknowledged {
        alias: Alias,
        cause: Unacked,
    },
    /// The tablet's log has these transactions, which its new primary's log has not.
    Errant {
        alias: Alias,
        extra: GtidSet,
    },
    /// The tablet does not stand as the primary of the last term that intends one. The newest row in its log is of this term.
    NotPromoted {
        alias: Alias,
        newest: u64,
    },
    /// Memory ran out while the command went on.
    OutOfMemory,
}
