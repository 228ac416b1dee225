//! How commands end.

use crate::{Finding, Refusal, Standing, Why};
use gtid_sets::{Gtid, GtidSet};
use shard_base::Items;
use shard_names::{Alias, ShardName};
use topo_lock::Record;
use uuid::Uuid;

/// Why a tablet did not join a new primary.
#[derive(Drop)]
pub enum Left {
    /// Its log has these transactions, which the primary's log has not.
    Errant { extra: GtidSet },
    /// The call was given up.
    GivenUp(Why),
    /// It has seen a later term.
    StaleTerm { seen: u64 },
    /// It has promised a later term.
    PromisedAhead { promised: u64 },
}

/// A tablet that did not join a new primary.
#[derive(Drop)]
pub struct NotJoined {
    pub alias: Alias,
    pub left: Left,
}

/// What a `vtorc` did about what it found.
#[derive(Drop)]
pub enum Rest {
    /// The tablet was promoted in this term. These did not join it.
    Promoted {
        alias: Alias,
        term: u64,
        left: Items<NotJoined>,
    },
    /// It was refused. Where it tried to give the old primary its place back, `undone` says whether that worked.
    Refused {
        refusal: Refusal,
        undone: Option<bool>,
    },
    /// The tablet replicates from the primary now.
    Joined {
        alias: Alias,
        to: Alias,
    },
    /// The tablet did not join the primary.
    Left {
        alias: Alias,
        left: Left,
    },
    /// The tablet was marked as drained.
    Drained {
        alias: Alias,
    },
}

/// What a tablet is shown as: by what was recorded and marked, or else by its declared type.
#[derive(Clone, Copy, Debug, PartialEq, Eq)]
pub enum ShownType {
    Primary,
    Drained,
    Replica,
    Rdonly,
    Spare,
}

/// A tablet as `GetTablets` shows it.
#[derive(Clone, Copy)]
pub struct TabletRow {
    pub alias: Alias,
    pub server: Uuid,
    pub kind: ShownType,
}

/// How a command ended.
#[derive(Drop)]
pub enum CommandAnswer {
    /// The tablet was promoted in this term. These did not join it.
    Promoted {
        alias: Alias,
        term: u64,
        left: Items<NotJoined>,
    },
    /// The tablet that the shard is to have as its primary is that already.
    NothingToDo {
        alias: Alias,
    },
    /// A promotion by other hands was recorded, in this term.
    Recorded {
        term: u64,
    },
    /// The command was refused. Where it tried to give the old primary its place back, `undone` says whether that worked.
    Refused {
        refusal: Refusal,
        undone: Option<bool>,
    },
    /// These tablets had something amiss, in alias order, and this was done about it, in order.
    Vtorc {
        findings: Items<Finding>,
        rest: Items<Rest>,
    },
    /// The write is this transaction, which the tablet wrote in this term, and counts as committed.
    Committed {
        gtid: Gtid,
        alias: Alias,
        term: u64,
    },
    /// The tablet does not take the write, since it stands so.
    NotPrimary {
        alias: Alias,
        stand: Standing,
    },
    /// The write found no primary recorded.
    NoPrimaryRecorded,
    /// The write is this transaction, and the tablet is no longer the primary of this term, in which it wrote it: whether it
    /// stays, nobody can say.
    Unknown {
        gtid: Gtid,
        alias: Alias,
        term: u64,
    },
    /// The tablet stood so, and its log had this position, right after the command began.
    Shown {
        alias: Alias,
        stand: Standing,
        position: GtidSet,
    },
    /// This was recorded of the shard's primary right after the command began.
    Shard {
        shard: ShardName,
        recorded: Option<Record>,
    },
    /// The shard's tablets were these right after the command began.
    Tablets {
        rows: Items<TabletRow>,
    },
}
