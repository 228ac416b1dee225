//! Whether two small things of a kind are one.

ghost use Rattle.std.specs.Prelude.{◌≡◌};
ghost use Rattle.shard_calls.specs.Kinds.{kind_eq};
ghost use Rattle.shard_calls.specs.Same.{position_eq, why_eq, standing_eq, left_eq, alias_or_none_eq, bar_eq, reason_eq, unreached_eq, unacked_eq, shown_type_eq, record_eq, record_or_none_eq, shard_name_eq, analysis_eq, undone_eq};

use gtid_sets::{GtidSet, covers};
use shard_calls::{
    Analysis, Bar, Kind, Left, Reason, ShownType, Standing, Unacked, Unreached, Why,
};
use shard_names::{Alias, ShardName};
use topo_lock::Record;

pub(crate) fn kind_eq(x: Kind, y: Kind) -> bool
    ensures { result ≡ kind_eq x y }
{
    match x {
        Kind::Status => matches!(y, Kind::Status),
        Kind::Stop => matches!(y, Kind::Stop),
        Kind::Demote => matches!(y, Kind::Demote),
        Kind::Promote => matches!(y, Kind::Promote),
        Kind::SetSource => matches!(y, Kind::SetSource),
        Kind::Feed => matches!(y, Kind::Feed),
        Kind::WaitFor => matches!(y, Kind::WaitFor),
        Kind::WaitTold => matches!(y, Kind::WaitTold),
    }
}

/// Whether the two have the same transactions.
pub fn position_eq(p: &GtidSet, q: &GtidSet) -> bool
    ensures { result ≡ position_eq p.now q.now }
{
    covers(p, q) && covers(q, p)
}

pub(crate) fn why_eq(x: &Why, y: &Why) -> bool
    ensures { result ≡ why_eq x.now y.now }
{
    match x {
        Why::Down => matches!(y, Why::Down),
        Why::Cut => matches!(y, Why::Cut),
        Why::Lost => matches!(y, Why::Lost),
        Why::TimedOut { since, now } => match y {
            Why::TimedOut {
                since: from,
                now: to,
            } => *since == *from && *now == *to,
            _ => false,
        },
    }
}

/// Whether the two tablets stand alike.
pub fn standing_eq(x: &Standing, y: &Standing) -> bool
    ensures { result ≡ standing_eq x.now y.now }
{
    match x {
        Standing::Down => matches!(y, Standing::Down),
        Standing::Stopped => matches!(y, Standing::Stopped),
        Standing::Primary { term } => match y {
            Standing::Primary { term: other } => *term == *other,
            _ => false,
        },
        Standing::Demoted { term, by } => match y {
            Standing::Demoted {
                term: other,
                by: since,
            } => *term == *other && *by == *since,
            _ => false,
        },
        Standing::Replica { source, term } => match y {
            Standing::Replica {
                source: from,
                term: other,
            } => *source == *from && *term == *other,
            _ => false,
        },
        Standing::Feeder { term } => match y {
            Standing::Feeder { term: other } => *term == *other,
            _ => false,
        },
    }
}

pub(crate) fn left_eq(x: &Left, y: &Left) -> bool
    ensures { result ≡ left_eq x.now y.now }
{
    match x {
        Left::Errant { extra } => match y {
            Left::Errant { extra: other } => position_eq(extra, other),
            _ => false,
        },
        Left::GivenUp(why) => match y {
            Left::GivenUp(other) => why_eq(why, other),
            _ => false,
        },
        Left::StaleTerm { seen } => match y {
            Left::StaleTerm { seen: other } => *seen == *other,
            _ => false,
        },
        Left::PromisedAhead { promised } => match y {
            Left::PromisedAhead { promised: other } => *promised == *other,
            _ => false,
        },
    }
}

pub(crate) fn alias_or_none_eq(a: &Option<Alias>, b: &Option<Alias>) -> bool
    ensures { result ≡ alias_or_none_eq a.now b.now }
{
    match a {
        Some(a) => match b {
            Some(b) => *a == *b,
            None => false,
        },
        None => b.is_none(),
    }
}

pub(crate) fn bar_eq(x: Bar, y: Bar) -> bool
    ensures { result ≡ bar_eq x y }
{
    match x {
        Bar::MustNot => matches!(y, Bar::MustNot),
        Bar::Drained => matches!(y, Bar::Drained),
        Bar::Ignored => matches!(y, Bar::Ignored),
    }
}

pub(crate) fn reason_eq(x: Reason, y: Reason) -> bool
    ensures { result ≡ reason_eq x y }
{
    match x {
        Reason::MustNot => matches!(y, Reason::MustNot),
        Reason::Drained => matches!(y, Reason::Drained),
        Reason::Avoided => matches!(y, Reason::Avoided),
        Reason::Ignored => matches!(y, Reason::Ignored),
        Reason::Unreached => matches!(y, Reason::Unreached),
        Reason::OtherCell => matches!(y, Reason::OtherCell),
        Reason::NotReplica => matches!(y, Reason::NotReplica),
        Reason::ShortOfAckers => matches!(y, Reason::ShortOfAckers),
    }
}

pub(crate) fn unreached_eq(x: &Unreached, y: &Unreached) -> bool
    ensures { result ≡ unreached_eq x.now y.now }
{
    match x {
        Unreached::GivenUp(why) => match y {
            Unreached::GivenUp(other) => why_eq(why, other),
            _ => false,
        },
        Unreached::Ignored => matches!(y, Unreached::Ignored),
    }
}

pub(crate) fn unacked_eq(x: &Unacked, y: &Unacked) -> bool
    ensures { result ≡ unacked_eq x.now y.now }
{
    match x {
        Unacked::NotTold { since, now } => match y {
            Unacked::NotTold {
                since: from,
                now: to,
            } => *since == *from && *now == *to,
            _ => false,
        },
        Unacked::Kept { stand } => match y {
            Unacked::Kept { stand: other } => standing_eq(stand, other),
            _ => false,
        },
    }
}

pub(crate) fn shown_type_eq(x: ShownType, y: ShownType) -> bool
    ensures { result ≡ shown_type_eq x y }
{
    match x {
        ShownType::Primary => matches!(y, ShownType::Primary),
        ShownType::Drained => matches!(y, ShownType::Drained),
        ShownType::Replica => matches!(y, ShownType::Replica),
        ShownType::Rdonly => matches!(y, ShownType::Rdonly),
        ShownType::Spare => matches!(y, ShownType::Spare),
    }
}

fn record_eq(x: &Record, y: &Record) -> bool
    ensures { result ≡ record_eq x.now y.now }
{
    x.alias == y.alias && x.term == y.term && x.moment == y.moment
}

/// Whether both are this record, or none.
pub fn record_or_none_eq(x: &Option<Record>, y: &Option<Record>) -> bool
    ensures { result ≡ record_or_none_eq x.now y.now }
{
    match x {
        Some(x) => match y {
            Some(y) => record_eq(x, y),
            None => false,
        },
        None => y.is_none(),
    }
}

/// Whether the two are of one shard.
pub fn shard_name_eq(m: &ShardName, n: &ShardName) -> bool
    ensures { result ≡ shard_name_eq m.now n.now }
{
    m.keyspace == n.keyspace && m.shard == n.shard
}

pub(crate) fn analysis_eq(x: Analysis, y: Analysis) -> bool
    ensures { result ≡ analysis_eq x y }
{
    match x {
        Analysis::NoProblem => matches!(y, Analysis::NoProblem),
        Analysis::ClusterHasNoPrimary => matches!(y, Analysis::ClusterHasNoPrimary),
        Analysis::DeadPrimaryWithoutReplicas => matches!(y, Analysis::DeadPrimaryWithoutReplicas),
        Analysis::DeadPrimaryAndReplicas => matches!(y, Analysis::DeadPrimaryAndReplicas),
        Analysis::DeadPrimaryAndSomeReplicas => matches!(y, Analysis::DeadPrimaryAndSomeReplicas),
        Analysis::DeadPrimary => matches!(y, Analysis::DeadPrimary),
        Analysis::PrimaryHasPrimary => matches!(y, Analysis::PrimaryHasPrimary),
        Analysis::PrimaryIsReadOnly => matches!(y, Analysis::PrimaryIsReadOnly),
        Analysis::LockedSemiSyncPrimary => matches!(y, Analysis::LockedSemiSyncPrimary),
        Analysis::ErrantGTIDDetected => matches!(y, Analysis::ErrantGTIDDetected),
        Analysis::ReplicaIsWritable => matches!(y, Analysis::ReplicaIsWritable),
        Analysis::ConnectedToWrongPrimary => matches!(y, Analysis::ConnectedToWrongPrimary),
        Analysis::NotConnectedToPrimary => matches!(y, Analysis::NotConnectedToPrimary),
        Analysis::ReplicationStopped => matches!(y, Analysis::ReplicationStopped),
    }
}

/// Whether an undo was tried in both or in neither, and came to the same.
pub(crate) fn undone_eq(x: &Option<bool>, y: &Option<bool>) -> bool
    ensures { result ≡ undone_eq x.now y.now }
{
    match x {
        Some(undone) => match y {
            Some(other) => if *undone { *other } else { !*other },
            None => false,
        },
        None => y.is_none(),
    }
}
