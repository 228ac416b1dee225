//! The table of analyses once more, as rows of data, over snapshots by numbers.

use durability::Durability;
use shard_calls::Analysis;

/// How a tablet stands that said it.
#[derive(Clone, Copy, PartialEq, Eq)]
pub(crate) enum How {
    Unreached,
    Down,
    Stopped,
    Primary,
    Demoted,
    Feeder,
    Replica,
}

/// What a tablet said: how it stands, in which term, from which tablet it replicates, and which of two transactions its log has.
#[derive(Clone, Copy)]
pub(crate) struct Said {
    pub(crate) how: How,
    pub(crate) term: u64,
    pub(crate) source: usize,
    pub(crate) first: bool,
    pub(crate) second: bool,
}

/// A snapshot by numbers: the first `count` of four tablets, of which the last is read-only, and the last two are in a cell of their own.
#[derive(Clone, Copy)]
pub(crate) struct Case {
    pub(crate) policy: Durability,
    pub(crate) count: usize,
    pub(crate) recorded: Option<usize>,
    pub(crate) term: u64,
    pub(crate) drained: [bool; 4],
    pub(crate) said: [Said; 4],
}

/// Of which tablets a row of the table speaks.
#[derive(Clone, Copy)]
enum Of {
    Any,
    Primary,
    Other,
}

#[derive(Clone, Copy)]
enum Condition {
    IsFirstWithoutRecord,
    IsWithoutRecord,
    IsAlone,
    NoOtherIsReached,
    SomeOtherIsNotReached,
    IsNotReached,
    IsReplica,
    IsNotPrimaryOfTheTerm,
    HasTooFewAckers,
    IsNotToBeJudged,
    HasMoreThanThePrimary,
    IsPrimary,
    IsReplicaOfAnother,
    IsNotConnected,
    IsStopped,
    Else,
}

/// The rows of the table. Each tablet has the analysis of the first row that holds of it.
const ROWS: [(Of, Condition, Analysis); 17] = [
    (
        Of::Any,
        Condition::IsFirstWithoutRecord,
        Analysis::ClusterHasNoPrimary,
    ),
    (Of::Any, Condition::IsWithoutRecord, Analysis::NoProblem),
    (
        Of::Primary,
        Condition::IsAlone,
        Analysis::DeadPrimaryWithoutReplicas,
    ),
    (
        Of::Primary,
        Condition::NoOtherIsReached,
        Analysis::DeadPrimaryAndReplicas,
    ),
    (
        Of::Primary,
        Condition::SomeOtherIsNotReached,
        Analysis::DeadPrimaryAndSomeReplicas,
    ),
    (Of::Primary, Condition::IsNotReached, Analysis::DeadPrimary),
    (
        Of::Primary,
        Condition::IsReplica,
        Analysis::PrimaryHasPrimary,
    ),
    (
        Of::Primary,
        Condition::IsNotPrimaryOfTheTerm,
        Analysis::PrimaryIsReadOnly,
    ),
    (
        Of::Primary,
        Condition::HasTooFewAckers,
        Analysis::LockedSemiSyncPrimary,
    ),
    (Of::Primary, Condition::Else, Analysis::NoProblem),
    (Of::Other, Condition::IsNotToBeJudged, Analysis::NoProblem),
    (
        Of::Other,
        Condition::HasMoreThanThePrimary,
        Analysis::ErrantGTIDDetected,
    ),
    (Of::Other, Condition::IsPrimary, Analysis::ReplicaIsWritable),
    (
        Of::Other,
        Condition::IsReplicaOfAnother,
        Analysis::ConnectedToWrongPrimary,
    ),
    (
        Of::Other,
        Condition::IsNotConnected,
        Analysis::NotConnectedToPrimary,
    ),
    (
        Of::Other,
        Condition::IsStopped,
        Analysis::ReplicationStopped,
    ),
    (Of::Other, Condition::Else, Analysis::NoProblem),
];

/// Of a tablet that was not reached.
pub(crate) const NOTHING: Said = Said {
    how: How::Unreached,
    term: 0,
    source: 0,
    first: false,
    second: false,
};

fn said_of(case: &Case, number: usize) -> Said {
    match case.said.get(number) {
        Some(said) if number < case.count => *said,
        _ => NOTHING,
    }
}

fn is_reached(case: &Case, number: usize) -> bool {
    said_of(case, number).how != How::Unreached
}

fn primary_of(case: &Case) -> usize {
    match case.recorded {
        Some(number) => number,
        None => 4,
    }
}

/// How many of the others are so far reached as this says.
fn count_others(case: &Case, reached: bool) -> usize {
    let primary = primary_of(case);
    (0..case.count)
        .filter(|number| *number != primary && is_reached(case, *number) == reached)
        .count()
}

fn is_acker(policy: Durability, primary: usize, number: usize) -> bool {
    let is_elsewhere = (primary < 2) != (number < 2);
    match policy {
        Durability::None => false,
        Durability::SemiSync => number < 3,
        Durability::CrossCell => number < 3 && is_elsewhere,
        Durability::SemiSyncWithRdonlyAck => true,
        Durability::CrossCellWithRdonlyAck => is_elsewhere,
    }
}

fn follows(case: &Case, number: usize, primary: usize) -> bool {
    let said = said_of(case, number);
    said.how == How::Replica && said.source == primary && said.term == case.term
}

fn has_too_few_ackers(case: &Case, primary: usize) -> bool {
    let ackers = (0..case.count)
        .filter(|number| {
            *number != primary
                && is_acker(case.policy, primary, *number)
                && follows(case, *number, primary)
        })
        .count();
    match case.policy {
        Durability::None => false,
        _ => ackers < 1,
    }
}

fn is_not_connected(case: &Case, said: &Said) -> bool {
    let primary = primary_of(case);
    match said.how {
        How::Demoted => true,
        How::Feeder => true,
        How::Replica => said.source == primary && said.term != said_of(case, primary).term,
        _ => false,
    }
}

fn is_beyond(said: &Said, primary: &Said) -> bool {
    (said.first && !primary.first) || (said.second && !primary.second)
}

fn is_not_to_be_judged(case: &Case, number: usize) -> bool {
    let is_drained = match case.drained.get(number) {
        Some(drained) => *drained,
        None => false,
    };
    is_drained || !is_reached(case, number) || said_of(case, primary_of(case)).how != How::Primary
}

fn holds(case: &Case, number: usize, condition: Condition) -> bool {
    let said = said_of(case, number);
    let primary = primary_of(case);
    match condition {
        Condition::IsFirstWithoutRecord => primary == 4 && number == 0,
        Condition::IsWithoutRecord => primary == 4,
        Condition::IsAlone => !is_reached(case, number) && case.count == 1,
        Condition::NoOtherIsReached => {
            !is_reached(case, number) && count_others(case, true) == 0
        }
        Condition::SomeOtherIsNotReached => {
            !is_reached(case, number) && count_others(case, false) > 0
        }
        Condition::IsNotReached => !is_reached(case, number),
        Condition::IsReplica => said.how == How::Replica,
        Condition::IsNotPrimaryOfTheTerm => said.how != How::Primary || said.term != case.term,
        Condition::HasTooFewAckers => has_too_few_ackers(case, number),
        Condition::IsNotToBeJudged => is_not_to_be_judged(case, number),
        Condition::HasMoreThanThePrimary => is_beyond(&said, &said_of(case, primary)),
        Condition::IsPrimary => said.how == How::Primary,
        Condition::IsReplicaOfAnother => said.how == How::Replica && said.source != primary,
        Condition::IsNotConnected => is_not_connected(case, &said),
        Condition::IsStopped => said.how == How::Stopped,
        Condition::Else => true,
    }
}

fn is_of(case: &Case, number: usize, of: Of) -> bool {
    match of {
        Of::Any => true,
        Of::Primary => number == primary_of(case),
        Of::Other => number != primary_of(case),
    }
}

/// What is amiss with the tablet of this number.
pub(crate) fn expected(case: &Case, number: usize) -> Analysis {
    for (of, condition, analysis) in ROWS {
        if is_of(case, number, of) && holds(case, number, condition) {
            return analysis;
        }
    }
    Analysis::NoProblem
}
