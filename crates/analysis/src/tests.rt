ghost use Rattle.std.specs.Prelude.{◌≤◌};

use crate::analyse;
use crate::expected::{Case, How, NOTHING, Said, expected};
use durability::Durability;
use gtid_sets::{Gtid, GtidSet};
use shard_base::Items;
use shard_calls::{Analysis, Group, Snapshot, Stand, Status, TabletStatus};
use shard_names::{Alias, Tablet, TabletType};
use std::alloc::Global;
use std::process::Abort;
use std::test::Fail;
use topo_lock::Record;
use uuid::Uuid;

fn alias(number: usize) -> Result<Alias, Fail> {
    let name = match number {
        0 => b"zone1-100",
        1 => b"zone1-101",
        2 => b"zone2-200",
        _ => b"zone2-201",
    };
    Ok(Alias::read(name)?)
}

fn kind(number: usize) -> TabletType {
    if number < 3 {
        TabletType::Replica
    } else {
        TabletType::Rdonly
    }
}

/// A server's bytes.
fn server(number: usize) -> Uuid {
    let byte = if number < 256 { number as u8 } else { 0 };
    Uuid::from_bytes([byte; 16])
}

fn tablets_of(alloc: Global, count: usize) -> Result<Items<Tablet>, Fail> {
    let mut tablets = Items::new(alloc);
    for number in 0..count {
        let alias = alias(number)?;
        tablets.push(Tablet {
            alias,
            server: server(number),
            kind: kind(number),
        })?;
    }
    Ok(tablets)
}

fn position_of(alloc: Global, said: &Said) -> Result<GtidSet, Fail> {
    let mut position = GtidSet::empty(alloc);
    for (number, has) in [(1, said.first), (2, said.second)] {
        if has {
            position.add(Gtid {
                server: Uuid::from_bytes([9; 16]),
                number,
            })?;
        }
    }
    Ok(position)
}

fn stand_of(said: &Said) -> Result<Option<Stand>, Fail> {
    let term = said.term;
    let source = alias(said.source)?;
    Ok(match said.how {
        How::Unreached => None,
        How::Down => Some(Stand::Down),
        How::Stopped => Some(Stand::Stopped),
        How::Primary => Some(Stand::Primary { term }),
        How::Demoted => Some(Stand::Demoted { term, by: 9 }),
        How::Feeder => Some(Stand::Feeder { term }),
        How::Replica => Some(Stand::Replica {
            source,
            term,
            next: 1,
        }),
    })
}

fn status_of(alloc: Global, said: &Said) -> Result<Option<Status>, Fail> {
    let position = position_of(alloc, said)?;
    Ok(match stand_of(said)? {
        Some(stand) => Some(Status { stand, position }),
        None => None,
    })
}

fn statuses_of(alloc: Global, case: &Case) -> Result<Items<TabletStatus>, Fail> {
    let mut statuses = Items::new(alloc);
    for (number, said) in case.said.iter().enumerate() {
        let alias = alias(number)?;
        let status = status_of(alloc, said)?;
        if number < case.count {
            statuses.push(TabletStatus { alias, status })?;
        }
    }
    Ok(statuses)
}

fn drained_of(alloc: Global, case: &Case) -> Result<Items<Alias>, Fail> {
    let mut drained = Items::new(alloc);
    for (number, marked) in case.drained.iter().enumerate() {
        if *marked {
            drained.push(alias(number)?)?;
        }
    }
    Ok(drained)
}

fn recorded_of(case: &Case) -> Result<Option<Record>, Fail> {
    let Some(number) = case.recorded else {
        return Ok(None);
    };
    let alias = alias(number)?;
    Ok(Some(Record {
        alias,
        term: case.term,
        moment: 0,
    }))
}

fn snapshot_of(alloc: Global, case: &Case) -> Result<Snapshot, Fail> {
    Ok(Snapshot {
        group: Group {
            tablets: tablets_of(alloc, case.count)?,
            policy: case.policy,
        },
        recorded: recorded_of(case)?,
        drained: drained_of(alloc, case)?,
        statuses: statuses_of(alloc, case)?,
    })
}

// ---- one snapshot for each analysis

fn says(how: How, term: u64, source: usize) -> Said {
    Said {
        how,
        term,
        source,
        first: true,
        second: false,
    }
}

/// A primary of term 2 at the first tablet, and two replicas of it.
fn sound() -> Case {
    Case {
        policy: Durability::SemiSync,
        count: 3,
        recorded: Some(0),
        term: 2,
        drained: [false; 4],
        said: [
            says(How::Primary, 2, 0),
            says(How::Replica, 2, 0),
            says(How::Replica, 2, 0),
            NOTHING,
        ],
    }
}

/// The sound case, where the three say this.
fn where_said(first: Said, second: Said, third: Said) -> Case {
    let mut case = sound();
    case.said = [first, second, third, NOTHING];
    case
}

fn without_record() -> Case {
    let mut case = sound();
    case.recorded = None;
    case
}

fn alone() -> Case {
    let mut case = where_said(NOTHING, NOTHING, NOTHING);
    case.count = 1;
    case
}

fn beyond() -> Said {
    let mut said = says(How::Replica, 2, 0);
    said.second = true;
    said
}

fn analysis_of(alloc: Global, case: &Case, number: usize) -> Result<Analysis, Fail> {
    let snapshot = snapshot_of(alloc, case)?;
    let findings = analyse(alloc, &snapshot)?;
    Ok(match findings.as_slice().get(number) {
        Some(finding) => finding.analysis,
        None => Analysis::NoProblem,
    })
}

/// Each analysis of the first tablet, by a snapshot of its own.
#[test]
fn analyses_of_primaries(rt: HostRuntime) -> Result<(), Fail> {
    let primary = says(How::Primary, 2, 0);
    let replica = says(How::Replica, 2, 0);
    let stopped = says(How::Stopped, 0, 0);
    for (case, analysis) in [
        (sound(), Analysis::NoProblem),
        (without_record(), Analysis::ClusterHasNoPrimary),
        (alone(), Analysis::DeadPrimaryWithoutReplicas),
        (
            where_said(NOTHING, NOTHING, NOTHING),
            Analysis::DeadPrimaryAndReplicas,
        ),
        (
            where_said(NOTHING, replica, NOTHING),
            Analysis::DeadPrimaryAndSomeReplicas,
        ),
        (where_said(NOTHING, replica, replica), Analysis::DeadPrimary),
        (
            where_said(says(How::Replica, 3, 1), replica, replica),
            Analysis::PrimaryHasPrimary,
        ),
        (
            where_said(says(How::Primary, 1, 0), replica, replica),
            Analysis::PrimaryIsReadOnly,
        ),
        (
            where_said(primary, stopped, stopped),
            Analysis::LockedSemiSyncPrimary,
        ),
    ] {
        assert!(rt; analysis_of(rt.alloc(), &case, 0)? == analysis);
    }
    Ok(())
}

/// Each analysis of another tablet, by a snapshot of its own.
#[test]
fn analyses_of_others(rt: HostRuntime) -> Result<(), Fail> {
    let primary = says(How::Primary, 2, 0);
    let replica = says(How::Replica, 2, 0);
    for (said, analysis) in [
        (replica, Analysis::NoProblem),
        (beyond(), Analysis::ErrantGTIDDetected),
        (says(How::Primary, 1, 0), Analysis::ReplicaIsWritable),
        (says(How::Replica, 2, 2), Analysis::ConnectedToWrongPrimary),
        (says(How::Replica, 1, 0), Analysis::NotConnectedToPrimary),
        (says(How::Demoted, 1, 0), Analysis::NotConnectedToPrimary),
        (says(How::Feeder, 1, 0), Analysis::NotConnectedToPrimary),
        (says(How::Stopped, 0, 0), Analysis::ReplicationStopped),
        (says(How::Down, 0, 0), Analysis::NoProblem),
    ] {
        let case = where_said(primary, said, replica);
        assert!(rt; analysis_of(rt.alloc(), &case, 1)? == analysis);
    }
    Ok(())
}

/// What is amiss with a drained tablet is not said.
#[test]
fn drained_tablets_are_let_be(rt: HostRuntime) -> Result<(), Fail> {
    let mut case = where_said(says(How::Primary, 2, 0), beyond(), says(How::Replica, 2, 0));
    case.drained = [false, true, false, false];
    assert!(rt; analysis_of(rt.alloc(), &case, 1)? == Analysis::NoProblem);
    Ok(())
}

// ---- two hundred snapshots

fn draw(seed: &mut u64, below: u64) -> u64
    ensures { result ≤ below }
{
    *seed = seed
        .wrapping_mul(6364136223846793005)
        .wrapping_add(1442695040888963407);
    if below == 0 {
        return 0;
    }
    (*seed >> 33) % below
}

fn draw_said(seed: &mut u64) -> Said {
    let how = match draw(seed, 14) {
        0 => How::Down,
        1 => How::Stopped,
        2 => How::Stopped,
        3 => How::Primary,
        4 => How::Demoted,
        5 => How::Feeder,
        6..=10 => How::Replica,
        _ => How::Unreached,
    };
    Said {
        how,
        term: 1 + draw(seed, 2),
        source: draw(seed, 2) as usize,
        first: draw(seed, 4) > 0,
        second: draw(seed, 4) == 0,
    }
}

/// Mostly the primary of term 2 with both transactions, so that something is said of the others.
fn draw_primary(seed: &mut u64) -> Said {
    if draw(seed, 3) == 0 {
        return draw_said(seed);
    }
    Said {
        how: How::Primary,
        term: 2,
        source: 1,
        first: true,
        second: draw(seed, 2) == 0,
    }
}

fn draw_policy(seed: &mut u64) -> Durability {
    match draw(seed, 5) {
        0 => Durability::None,
        1 => Durability::SemiSync,
        2 => Durability::CrossCell,
        3 => Durability::SemiSyncWithRdonlyAck,
        _ => Durability::CrossCellWithRdonlyAck,
    }
}

fn draw_recorded(seed: &mut u64) -> Option<usize> {
    if draw(seed, 8) == 0 { None } else { Some(0) }
}

fn draw_marks(seed: &mut u64) -> [bool; 4] {
    let mark = draw(seed, 8);
    [mark == 0, mark == 1, mark == 2, mark == 3]
}

fn draw_all(seed: &mut u64) -> [Said; 4] {
    let primary = draw_primary(seed);
    let second = draw_said(seed);
    let third = draw_said(seed);
    [primary, second, third, draw_said(seed)]
}

fn draw_case(seed: &mut u64) -> Case {
    let policy = draw_policy(seed);
    let count = 1 + draw(seed, 4) as usize;
    let recorded = draw_recorded(seed);
    let drained = draw_marks(seed);
    Case {
        policy,
        count,
        recorded,
        term: 2,
        drained,
        said: draw_all(seed),
    }
}

fn check(rt: &impl Abort, alloc: Global, case: &Case) -> Result<(), Fail> {
    let snapshot = snapshot_of(alloc, case)?;
    let findings = analyse(alloc, &snapshot)?;
    assert!(rt; findings.len() == case.count);
    for (number, finding) in findings.as_slice().iter().enumerate() {
        let alias = alias(number)?;
        assert!(rt; finding.alias == alias);
        assert!(rt; finding.analysis == expected(case, number));
    }
    Ok(())
}

/// The analyses of two hundred snapshots are those of the rows.
#[test]
fn analyses_are_those_of_the_rows(rt: HostRuntime) -> Result<(), Fail> {
    let mut seed = 13;
    for _turn in 0..200 {
        let case = draw_case(&mut seed);
        check(&rt, rt.alloc(), &case)?;
    }
    Ok(())
}
