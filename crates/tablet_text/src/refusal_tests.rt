//! The number and the text of each refusal.

use crate::refusal::write_refusal;
use crate::tests::{alias, gtid, name, one};
use shard_base::{Items, OutOfMemory};
use shard_calls::{Bar, NotStopped, Reason, Refusal, Rejected, Standing, Unacked, Unreached, Why};
use shard_names::Alias;
use std::alloc::Global;
use std::process::Abort;
use std::test::Fail;

/// Whether the refusal has this text.
fn says(alloc: Global, refusal: Refusal, want: &[u8]) -> Result<bool, OutOfMemory> {
    let mut text = Vec::new(alloc);
    write_refusal(&refusal, &mut text)?;
    Ok(text.as_slice() == want)
}

#[test]
fn of_the_lock(rt: HostRuntime) -> Result<(), Fail> {
    let alloc = rt.alloc();
    let actor = name(&rt, b"q");
    let taken = Refusal::LockTaken { term: 1, actor };
    assert!(rt; says(alloc, taken, b"1 LockTaken: term 1 by q")?);
    let lost = Refusal::LockLost { term: 2 };
    assert!(rt; says(alloc, lost, b"2 LockLost: topology is at term 2")?);
    Ok(())
}

#[test]
fn of_options(rt: HostRuntime) -> Result<(), Fail> {
    let alloc = rt.alloc();
    let unknown = Refusal::NoSuchTablet {
        alias: alias(&rt, b"zone1-100"),
    };
    assert!(rt; says(alloc, unknown, b"3 NoSuchTablet: zone1-0000000100")?);
    let other = Refusal::ExpectedPrimary {
        recorded: Some(alias(&rt, b"zone1-101")),
    };
    assert!(rt; says(alloc, other, b"5 ExpectedPrimary: zone1-0000000101")?);
    let none = Refusal::ExpectedPrimary { recorded: None };
    assert!(rt; says(alloc, none, b"5 ExpectedPrimary: none")?);
    assert!(rt; says(alloc, Refusal::BothGiven, b"6 BothGiven")?);
    let pending = Refusal::ReparentPending {
        alias: alias(&rt, b"zone1-100"),
        term: 4,
    };
    assert!(rt;
        says(
            alloc,
            pending,
            b"7 ReparentPending: zone1-0000000100 in term 4"
        )?
    );
    let far = Refusal::CrossCell {
        alias: alias(&rt, b"zone2-200"),
    };
    assert!(rt; says(alloc, far, b"15 CrossCell: zone2-0000000200 is in zone2")?);
    Ok(())
}

fn barred(rt: &impl Abort, bar: Bar) -> Refusal {
    Refusal::NotEligible {
        alias: alias(rt, b"zone1-100"),
        bar,
    }
}

#[test]
fn of_bars(rt: HostRuntime) -> Result<(), Fail> {
    let alloc = rt.alloc();
    let must_not = b"4 NotEligible: zone1-0000000100 must_not";
    assert!(rt; says(alloc, barred(&rt, Bar::MustNot), must_not)?);
    let drained = b"4 NotEligible: zone1-0000000100 drained";
    assert!(rt; says(alloc, barred(&rt, Bar::Drained), drained)?);
    let ignored = b"4 NotEligible: zone1-0000000100 ignored";
    assert!(rt; says(alloc, barred(&rt, Bar::Ignored), ignored)?);
    Ok(())
}

fn reject(rejected: &mut Items<Rejected>, alias: Alias, reason: Reason) -> Result<(), OutOfMemory> {
    rejected.push(Rejected { alias, reason })
}

/// A tablet for each reason.
fn all_rejected(rt: &impl Abort, alloc: Global) -> Result<Items<Rejected>, OutOfMemory> {
    let mut rejected = Items::new(alloc);
    reject(&mut rejected, alias(rt, b"z-1"), Reason::MustNot)?;
    reject(&mut rejected, alias(rt, b"z-2"), Reason::Drained)?;
    reject(&mut rejected, alias(rt, b"z-3"), Reason::Avoided)?;
    reject(&mut rejected, alias(rt, b"z-4"), Reason::Ignored)?;
    reject(&mut rejected, alias(rt, b"z-5"), Reason::Unreached)?;
    reject(&mut rejected, alias(rt, b"z-6"), Reason::OtherCell)?;
    reject(&mut rejected, alias(rt, b"z-7"), Reason::NotReplica)?;
    reject(&mut rejected, alias(rt, b"z-8"), Reason::ShortOfAckers)?;
    Ok(rejected)
}

#[test]
fn of_candidates(rt: HostRuntime) -> Result<(), Fail> {
    let alloc = rt.alloc();
    let reasons = all_rejected(&rt, alloc)?;
    let want = b"9 NoCandidate: z-0000000001 must_not, z-0000000002 drained, z-0000000003 avoided, \
                 z-0000000004 ignored, z-0000000005 unreached, z-0000000006 other cell, \
                 z-0000000007 not a replica, z-0000000008 short of ackers";
    assert!(rt; says(alloc, Refusal::NoCandidate { reasons }, want)?);
    let reasons = Items::new(alloc);
    assert!(rt; says(alloc, Refusal::NoCandidate { reasons }, b"9 NoCandidate: -")?);
    Ok(())
}

#[test]
fn of_calls(rt: HostRuntime) -> Result<(), Fail> {
    let alloc = rt.alloc();
    let why = Why::TimedOut {
        since: 1704067200000,
        now: 1704067215000,
    };
    let late = Refusal::Unreachable {
        alias: alias(&rt, b"zone1-100"),
        why,
    };
    let want = b"8 Unreachable: zone1-0000000100 timed out since 2024-01-01T00:00:00.000Z at \
                 2024-01-01T00:00:15.000Z";
    assert!(rt; says(alloc, late, want)?);
    let behind = Refusal::NotCaughtUp {
        alias: alias(&rt, b"zone1-100"),
        missing: one(alloc, gtid(0, 2))?,
        since: 1704067200000,
        now: 1704067200001,
    };
    let want =
        b"10 NotCaughtUp: zone1-0000000100 lacks 00000000-0000-4000-8000-000000000100:2 since \
                 2024-01-01T00:00:00.000Z at 2024-01-01T00:00:00.001Z";
    assert!(rt; says(alloc, behind, want)?);
    let stale = Refusal::StaleTerm {
        alias: alias(&rt, b"zone1-100"),
        seen: 2,
    };
    assert!(rt;
        says(
            alloc,
            stale,
            b"11 StaleTerm: zone1-0000000100 has seen term 2"
        )?
    );
    Ok(())
}

fn push_unreached(
    tablets: &mut Items<NotStopped>,
    alias: Alias,
    unreached: Unreached,
) -> Result<(), OutOfMemory> {
    tablets.push(NotStopped { alias, unreached })
}

#[test]
fn of_revocation(rt: HostRuntime) -> Result<(), Fail> {
    let alloc = rt.alloc();
    let mut unreached = Items::new(alloc);
    push_unreached(
        &mut unreached,
        alias(&rt, b"zone1-101"),
        Unreached::GivenUp(Why::Down),
    )?;
    push_unreached(&mut unreached, alias(&rt, b"zone1-102"), Unreached::Ignored)?;
    let unrevoked = Refusal::NotRevoked {
        alias: alias(&rt, b"zone1-100"),
        unreached,
    };
    let want =
        b"12 NotRevoked: zone1-0000000100 may still commit; unreached zone1-0000000101 down, \
                 zone1-0000000102 ignored";
    assert!(rt; says(alloc, unrevoked, want)?);
    let few = Refusal::CannotEstablish {
        alias: alias(&rt, b"zone1-100"),
        have: 1,
        need: 2,
    };
    assert!(rt;
        says(
            alloc,
            few,
            b"13 CannotEstablish: zone1-0000000100 has 1 of 2 ackers"
        )?
    );
    Ok(())
}

#[test]
fn of_logs(rt: HostRuntime) -> Result<(), Fail> {
    let alloc = rt.alloc();
    let split = Refusal::SplitBrain {
        a: alias(&rt, b"zone1-100"),
        has_a: one(alloc, gtid(0, 2))?,
        b: alias(&rt, b"zone1-101"),
        has_b: one(alloc, gtid(1, 3))?,
    };
    let want = b"14 SplitBrain: zone1-0000000100 has 00000000-0000-4000-8000-000000000100:2 and \
                 zone1-0000000101 has 00000000-0000-4000-8000-000000000101:3";
    assert!(rt; says(alloc, split, want)?);
    let extra = one(alloc, gtid(1, 3))?;
    let errant = Refusal::Errant {
        alias: alias(&rt, b"zone1-101"),
        extra,
    };
    let want = b"18 Errant: zone1-0000000101 has 00000000-0000-4000-8000-000000000101:3";
    assert!(rt; says(alloc, errant, want)?);
    let other = Refusal::NotPromoted {
        alias: alias(&rt, b"zone1-101"),
        newest: 2,
    };
    assert!(rt;
        says(
            alloc,
            other,
            b"19 NotPromoted: zone1-0000000101 has newest row 2"
        )?
    );
    Ok(())
}

#[test]
fn of_acknowledgements(rt: HostRuntime) -> Result<(), Fail> {
    let alloc = rt.alloc();
    let cause = Unacked::NotTold {
        since: 1704067200000,
        now: 1704067216000,
    };
    let not_told = Refusal::NotAcknowledged {
        alias: alias(&rt, b"zone1-100"),
        cause,
    };
    let want = b"17 NotAcknowledged: zone1-0000000100 since 2024-01-01T00:00:00.000Z at \
                 2024-01-01T00:00:16.000Z";
    assert!(rt; says(alloc, not_told, want)?);
    let stand = Standing::Demoted { term: 1, by: 2 };
    let kept = Refusal::NotAcknowledged {
        alias: alias(&rt, b"zone1-100"),
        cause: Unacked::Kept { stand },
    };
    let want = b"17 NotAcknowledged: zone1-0000000100 is demoted from term 1 by term 2";
    assert!(rt; says(alloc, kept, want)?);
    Ok(())
}

#[test]
fn of_what_ends_a_command(rt: HostRuntime) -> Result<(), Fail> {
    let alloc = rt.alloc();
    assert!(rt; says(alloc, Refusal::OutOfMemory, b"20 OutOfMemory")?);
    Ok(())
}
