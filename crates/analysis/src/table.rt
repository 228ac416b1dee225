//! The one table of analyses: what is amiss with each tablet, by what the tablets said.

ghost use Rattle.std.specs.Prelude.{◌≡◌, ◌&&◌, ◌++◌, Some, not, filter, length, map, IfOk, OnOk};
ghost use Rattle.std.specs.List.{list_any};
ghost use Rattle.durability.specs.Policies.{rules_of};
ghost use Rattle.shard_names.specs.Tablets.{alias_eq};
ghost use Rattle.shard_calls.specs.declared.analysis.Analysis.TheVariants as analyses;
ghost use Rattle.shard_calls.specs.Analysis.{said_in, is_reached, finding, is_replica, others_than, analysis_of_dead, follows, replicates, is_locked, analysis_of_primary, analysis_by_stand, analysis_beside, analysis_under, analysis_of_other, analysis_of, without_primary, analysed, analysis_at};
ghost use Rattle.shard_calls.specs.Causes.{statuses, findings_of};

use crate::statuses::{status_of, statuses_of};
use durability::Policy;
use gtid_sets::{GtidSet, covers};
use refusals::is_among;
use shard_base::{Items, OutOfMemory};
use shard_calls::{Analysis, Deed, Finding, Group, Seen, Snapshot, Stand, Status, TabletStatus};
use shard_names::{Alias, Tablet};
use std::alloc::Global;
use topo_lock::Record;

// ---- of a primary that was not reached

fn is_reached(statuses: &[TabletStatus], tablet: &Tablet) -> bool
    ensures { result ≡ is_reached (said_in statuses.now) tablet.now }
{
    status_of(statuses, &tablet.alias).is_some()
}

fn count_others(group: &Group, alias: &Alias) -> usize
    ensures { result ≡ length (others_than group.now alias.now) }
{
    group
        .tablets
        .as_slice()
        .iter()
        .filter(|tablet| tablet.alias != *alias)
        .count()
}

fn any_other_is_reached(group: &Group, alias: &Alias, statuses: &[TabletStatus]) -> bool
    ensures { result ≡ list_any (λ t. not (alias_eq t.alias alias.now) && is_reached (said_in statuses.now) t) group.now.tablets }
{
    let tablets = group.tablets.as_slice();
    tablets.iter().any(|tablet| tablet.alias != *alias && is_reached(statuses, tablet))
}

fn other_is_reached(group: &Group, alias: &Alias, statuses: &[TabletStatus]) -> bool
    ensures { result ≡ list_any (is_reached (said_in statuses.now)) (others_than group.now alias.now) }
{
    any_other_is_reached(group, alias, statuses)
}

fn any_other_is_not(group: &Group, alias: &Alias, statuses: &[TabletStatus]) -> bool
    ensures { result ≡ list_any (λ t. not (alias_eq t.alias alias.now) && not (is_reached (said_in statuses.now) t)) group.now.tablets }
{
    let tablets = group.tablets.as_slice();
    tablets.iter().any(|tablet| tablet.alias != *alias && !is_reached(statuses, tablet))
}

fn other_is_not_reached(group: &Group, alias: &Alias, statuses: &[TabletStatus]) -> bool
    ensures { result ≡ list_any (λ t. not (is_reached (said_in statuses.now) t)) (others_than group.now alias.now) }
{
    any_other_is_not(group, alias, statuses)
}

fn analysis_of_dead(group: &Group, alias: &Alias, statuses: &[TabletStatus]) -> Analysis
    ensures { result ≡ analysis_of_dead (others_than group.now alias.now) (said_in statuses.now) }
{
    if count_others(group, alias) == 0 {
        return Analysis::DeadPrimaryWithoutReplicas;
    }
    if !other_is_reached(group, alias, statuses) {
        return Analysis::DeadPrimaryAndReplicas;
    }
    if other_is_not_reached(group, alias, statuses) {
        return Analysis::DeadPrimaryAndSomeReplicas;
    }
    Analysis::DeadPrimary
}

// ---- of a primary that was reached

fn is_replica(stand: &Stand) -> bool
    ensures { result ≡ is_replica stand.now }
{
    matches!(stand, Stand::Replica { .. })
}

fn follows(primary: &Alias, term: u64, stand: &Stand) -> bool
    ensures { result ≡ follows primary.now term stand.now }
{
    match stand {
        Stand::Replica {
            source,
            term: other,
            ..
        } => *source == *primary && *other == term,
        _ => false,
    }
}

/// Whether the tablet said that it replicates from this primary in this term.
fn replicates(primary: &Alias, term: u64, statuses: &[TabletStatus], alias: &Alias) -> bool
    ensures { result ≡ replicates primary.now term (said_in statuses.now alias.now) }
{
    match status_of(statuses, alias) {
        Some(status) => follows(primary, term, &status.stand),
        None => false,
    }
}

fn count_ackers(group: &Group, primary: &Tablet, term: u64, statuses: &[TabletStatus]) -> usize
    ensures { result ≡ length (filter (λ t. (rules_of group.now.policy).is_acker primary.now t
        && replicates primary.now.alias term (said_in statuses.now t.alias)) group.now.tablets) }
{
    let tablets = group.tablets.as_slice();
    tablets
        .iter()
        .filter(|tablet| {
            group.policy.is_acker(primary, tablet)
                && replicates(&primary.alias, term, statuses, &tablet.alias)
        })
        .count()
}

/// Whether fewer of its ackers replicate from the primary than have to acknowledge its writes.
fn is_locked(group: &Group, primary: &Tablet, term: u64, statuses: &[TabletStatus]) -> bool
    ensures { result ≡ is_locked group.now primary.now term (said_in statuses.now) }
{
    count_ackers(group, primary, term, statuses) < group.policy.acks(primary) as usize
}

fn analysis_of_reached(
    group: &Group,
    record: &Record,
    statuses: &[TabletStatus],
    primary: &Tablet,
    status: &Status,
) -> Analysis
    ensures { result ≡ analysis_of_primary group.now record.now (said_in statuses.now) primary.now (Some status.now) }
{
    if is_replica(&status.stand) {
        return Analysis::PrimaryHasPrimary;
    }
    if !status.stand.is_primary_of(record.term) {
        return Analysis::PrimaryIsReadOnly;
    }
    if is_locked(group, primary, record.term, statuses) {
        return Analysis::LockedSemiSyncPrimary;
    }
    Analysis::NoProblem
}

fn analysis_of_primary(
    group: &Group,
    record: &Record,
    statuses: &[TabletStatus],
    primary: &Tablet,
) -> Analysis
    ensures { result ≡ analysis_of_primary group.now record.now (said_in statuses.now) primary.now (said_in statuses.now primary.now.alias) }
{
    match status_of(statuses, &primary.alias) {
        Some(status) => analysis_of_reached(group, record, statuses, primary, status),
        None => analysis_of_dead(group, &primary.alias, statuses),
    }
}

// ---- of another tablet

fn analysis_by_stand(primary: &Alias, term: u64, stand: &Stand) -> Analysis
    ensures { result ≡ analysis_by_stand primary.now term stand.now }
{
    match stand {
        Stand::Down => Analysis::NoProblem,
        Stand::Stopped => Analysis::ReplicationStopped,
        Stand::Primary { .. } => Analysis::ReplicaIsWritable,
        Stand::Demoted { .. } => Analysis::NotConnectedToPrimary,
        Stand::Feeder { .. } => Analysis::NotConnectedToPrimary,
        Stand::Replica {
            source,
            term: other,
            ..
        } => {
            if *source != *primary {
                return Analysis::ConnectedToWrongPrimary;
            }
            if *other == term {
                return Analysis::NoProblem;
            }
            Analysis::NotConnectedToPrimary
        }
    }
}

fn analysis_of_status(primary: &Alias, term: u64, has: &GtidSet, status: &Status) -> Analysis
    ensures { result ≡ analysis_beside primary.now term has.now (Some status.now) }
{
    if !covers(has, &status.position) {
        return Analysis::ErrantGTIDDetected;
    }
    analysis_by_stand(primary, term, &status.stand)
}

/// Beside a primary that has this position.
fn analysis_beside(
    primary: &Alias,
    term: u64,
    has: &GtidSet,
    statuses: &[TabletStatus],
    alias: &Alias,
) -> Analysis
    ensures { result ≡ analysis_beside primary.now term has.now (said_in statuses.now alias.now) }
{
    match status_of(statuses, alias) {
        Some(status) => analysis_of_status(primary, term, has, status),
        None => Analysis::NoProblem,
    }
}

/// Only a tablet that stands as a primary shows what is amiss with others.
fn analysis_under(
    primary: &Alias,
    status: &Status,
    statuses: &[TabletStatus],
    alias: &Alias,
) -> Analysis
    ensures { result ≡ analysis_under primary.now status.now.stand status.now.position (said_in statuses.now alias.now) }
{
    match &status.stand {
        Stand::Primary { term } => {
            analysis_beside(primary, *term, &status.position, statuses, alias)
        }
        _ => Analysis::NoProblem,
    }
}

fn analysis_of_other(primary: &Alias, statuses: &[TabletStatus], alias: &Alias) -> Analysis
    ensures { result ≡ analysis_of_other primary.now (said_in statuses.now primary.now) (said_in statuses.now alias.now) }
{
    match status_of(statuses, primary) {
        Some(status) => analysis_under(primary, status, statuses, alias),
        None => Analysis::NoProblem,
    }
}

// ---- of all

fn analysis_of(
    group: &Group,
    record: &Record,
    drained: &[Alias],
    statuses: &[TabletStatus],
    tablet: &Tablet,
) -> Analysis
    ensures { result ≡ analysis_of group.now record.now drained.now (said_in statuses.now) tablet.now }
{
    if tablet.alias == record.alias {
        return analysis_of_primary(group, record, statuses, tablet);
    }
    if is_among(drained, &tablet.alias) {
        return Analysis::NoProblem;
    }
    analysis_of_other(&record.alias, statuses, &tablet.alias)
}

fn analysed(
    alloc: Global,
    group: &Group,
    record: &Record,
    drained: &[Alias],
    statuses: &[TabletStatus],
) -> Result<Items<Finding>, OutOfMemory>
    ensures { IfOk result (λ findings. findings ≡ map
        (λ t. finding t.alias (analysis_of group.now record.now drained.now (said_in statuses.now) t)) group.now.tablets) }
{
    let mut findings = Items::new(alloc);
    for tablet in group.tablets.as_slice() {
        findings.push(Finding {
            alias: tablet.alias,
            analysis: analysis_of(group, record, drained, statuses, tablet),
        })?;
    }
    Ok(findings)
}

fn push_sound(into: &mut Items<Finding>, tablets: &[Tablet]) -> Result<(), OutOfMemory>
    ensures { OnOk result (into.new ≡ into.old ++ map (λ t. finding t.alias analyses.NoProblem) tablets.now) }
{
    for tablet in tablets {
        into.push(Finding {
            alias: tablet.alias,
            analysis: Analysis::NoProblem,
        })?;
    }
    Ok(())
}

/// Where no primary is recorded, it is said of the first tablet.
fn without_primary(alloc: Global, tablets: &[Tablet]) -> Result<Items<Finding>, OutOfMemory>
    ensures { IfOk result (λ findings. findings ≡ without_primary tablets.now) }
{
    let mut findings = Items::new(alloc);
    let Some((first, others)) = tablets.split_first() else {
        return Ok(findings);
    };
    findings.push(Finding {
        alias: first.alias,
        analysis: Analysis::ClusterHasNoPrimary,
    })?;
    push_sound(&mut findings, others)?;
    Ok(findings)
}

/// What is amiss with each tablet, in the order of the tablets, where this primary is recorded, these tablets are marked as drained, and this is
/// what the tablets said. Of a tablet that is named twice there the first entry counts.
pub fn findings_of(
    alloc: Global,
    group: &Group,
    recorded: &Option<Record>,
    drained: &[Alias],
    statuses: &[TabletStatus],
) -> Result<Items<Finding>, OutOfMemory>
    ensures { IfOk result (λ findings. findings ≡ analysed group.now recorded.now drained.now (said_in statuses.now)) }
{
    match recorded {
        Some(record) => analysed(alloc, group, record, drained, statuses),
        None => without_primary(alloc, group.tablets.as_slice()),
    }
}

/// What is amiss with each tablet, in the order of the tablets, by what was read and by what each answered to the first of these calls of it.
pub fn findings_by(
    alloc: Global,
    group: &Group,
    seen: &Seen,
    deeds: &[Deed],
) -> Result<Items<Finding>, OutOfMemory>
    ensures { IfOk result (λ findings. findings ≡ findings_of group.now seen.now deeds.now) }
{
    let statuses = statuses_of(alloc, deeds)?;
    findings_of(
        alloc,
        group,
        &seen.recorded,
        seen.drained.as_slice(),
        statuses.as_slice(),
    )
}

/// What is amiss with each tablet of the shard at a moment, in the order of the tablets.
pub fn analyse(alloc: Global, snapshot: &Snapshot) -> Result<Items<Finding>, OutOfMemory>
    ensures { IfOk result (λ findings. findings ≡ analysis_at snapshot.now) }
{
    findings_of(
        alloc,
        &snapshot.group,
        &snapshot.recorded,
        snapshot.drained.as_slice(),
        snapshot.statuses.as_slice(),
    )
}
