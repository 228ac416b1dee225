use crate::Stand;
use gtid_sets::GtidSet;

/// What a tablet answers to a call. `newest` is the term of the newest row in its log, or 0, and `position` is that of its log.
#[derive(Clone, Drop)]
pub enum Answer {
    /// How it stands.
    Status {
        seen: u64,
        promised: u64,
        stand: Stand,
        newest: u64,
        position: GtidSet,
    },
    /// It has stopped, and has promised the term.
    Stopped {
        newest: u64,
        position: GtidSet,
    },
    /// It takes no more writes, and has promised the term.
    Demoted {
        newest: u64,
        position: GtidSet,
    },
    /// It is the primary of the term. The position has the row of the term.
    Promoted {
        position: GtidSet,
    },
    /// It replicates from the source.
    Joined,
    /// It sends its log to replicas of the term.
    Feeding,
    /// Its log covers the position.
    Holds,
    /// The row of the term counts as committed.
    Told,
    /// It is the primary of the term, whose row does not count as committed.
    NotTold,
    /// It keeps the stand that it has.
    Kept {
        stand: Stand,
    },
    /// It has seen a later term.
    StaleTerm {
        seen: u64,
    },
    /// It has promised a later term than the one in which the source stands.
    PromisedAhead {
        promised: u64,
    },
    /// Its log lacks these transactions.
    NotCaughtUp {
        missing: GtidSet,
    },
    /// Its log has these transactions beyond the position.
    Errant {
        extra: GtidSet,
    },
    /// The newest row in its log is another tablet's, or there is none.
    NotStanding {
        newest: u64,
    },
}
