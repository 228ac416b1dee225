//! What is amiss with the tablets of a shard, and what they said from which it is seen.

use crate::{Group, Stand};
use gtid_sets::GtidSet;
use shard_base::Items;
use shard_names::Alias;
use topo_lock::Record;

/// What is amiss with a tablet, by the names of VTOrc.
#[derive(Clone, Copy, Debug, PartialEq, Eq)]
pub enum Analysis {
    NoProblem,
    /// The shard has no primary on record. It is said of its first tablet.
    ClusterHasNoPrimary,
    /// The primary does not answer, and there is no other tablet.
    DeadPrimaryWithoutReplicas,
    /// The primary does not answer, nor does any other tablet.
    DeadPrimaryAndReplicas,
    /// The primary does not answer, nor do some of the others.
    DeadPrimaryAndSomeReplicas,
    /// The primary does not answer, and all others do.
    DeadPrimary,
    /// The recorded primary replicates from another tablet.
    PrimaryHasPrimary,
    /// The recorded primary does not stand as the primary of the recorded term.
    PrimaryIsReadOnly,
    /// Fewer tablets replicate from the primary than have to acknowledge its writes.
    LockedSemiSyncPrimary,
    /// The tablet's log has transactions that the primary's has not.
    ErrantGTIDDetected,
    /// A tablet that is not the recorded primary stands as a primary.
    ReplicaIsWritable,
    /// It replicates from another tablet than the primary.
    ConnectedToWrongPrimary,
    /// It does not replicate from the primary in the primary's term.
    NotConnectedToPrimary,
    /// It does not replicate.
    ReplicationStopped,
}

/// What is amiss with this tablet.
#[derive(Clone, Copy, Debug, PartialEq, Eq)]
pub struct Finding {
    pub alias: Alias,
    pub analysis: Analysis,
}

/// How a tablet stands that was reached, and the position of its log.
#[derive(Drop)]
pub struct Status {
    pub stand: Stand,
    pub position: GtidSet,
}

/// What a tablet said of itself that was asked, if it was reached.
#[derive(Drop)]
pub struct TabletStatus {
    pub alias: Alias,
    pub status: Option<Status>,
}

/// A shard at a moment, as one sees it who asked its tablets: the tablets and the policy, the record of the primary, the tablets that are
/// marked as drained, and what each tablet said. A tablet that is not named was not reached; of one that is named twice the first counts.
#[derive(Drop)]
pub struct Snapshot {
    pub group: Group,
    pub recorded: Option<Record>,
    pub drained: Items<Alias>,
    pub statuses: Items<TabletStatus>,
}
