use super::*;
use crate::policy::POLICIES;
use crate::revocation::{find_tablet, is_among};
use shard_names::{Alias, PromotionRule, Tablet, TabletType};
use std::process::Abort;
use std::test::Fail;
use uuid::Uuid;

fn tablet(alias: &[u8], server: &str, kind: TabletType) -> Result<Tablet, Fail> {
    Ok(Tablet {
        alias: Alias::read(alias)?,
        server: Uuid::try_parse(server)?,
        kind,
    })
}

/// Two cells, and a spare tablet in a third.
fn five_tablets() -> Result<[Tablet; 5], Fail> {
    Ok([
        tablet(
            b"zone1-100",
            "00000000-0000-4000-8000-000000000100",
            TabletType::Replica,
        )?,
        tablet(
            b"zone1-101",
            "00000000-0000-4000-8000-000000000101",
            TabletType::Replica,
        )?,
        tablet(
            b"zone2-200",
            "00000000-0000-4000-8000-000000000200",
            TabletType::Replica,
        )?,
        tablet(
            b"zone2-201",
            "00000000-0000-4000-8000-000000000201",
            TabletType::Rdonly,
        )?,
        tablet(
            b"zone3-300",
            "00000000-0000-4000-8000-000000000300",
            TabletType::Spare,
        )?,
    ])
}

#[test]
fn unrevoked_across_cells(rt: HostRuntime) -> Result<(), Fail> {
    let five = five_tablets()?;
    let four = &five[..4];
    let policy = Durability::CrossCell;
    assert_eq!(rt;
        first_unrevoked(&policy, four, &[five[0].alias]),
        Some(five[1].alias)
    );
    assert_eq!(rt;
        first_unrevoked(&policy, four, &[five[0].alias, five[1].alias]),
        None
    );
    assert_eq!(rt; first_unrevoked(&policy, four, &[five[2].alias]), None);
    Ok(())
}

#[test]
fn established_across_cells(rt: HostRuntime) -> Result<(), Fail> {
    let five = five_tablets()?;
    let four = &five[..4];
    let chosen = five[0].alias;
    let reached = [five[0].alias, five[1].alias];
    assert!(rt; find_tablet(four, &chosen).is_some());
    assert!(rt; is_among(&reached, &chosen));
    let short = can_establish(&Durability::CrossCell, four, &chosen, &reached);
    assert_eq!(rt; short, Err(Short { have: 0, need: 1 }));
    assert_eq!(rt;
        can_establish(&Durability::SemiSync, four, &chosen, &reached),
        Ok(())
    );
    Ok(())
}

#[test]
fn names(rt: HostRuntime) {
    assert_eq!(rt; read_policy(b"semi-sync"), Err(UnknownPolicy));
    assert_eq!(rt; read_policy(b"semi_sync"), Ok(Durability::SemiSync));
}

/// By the manual: which tablets acknowledge for the first replica, and which may be promoted.
#[test]
fn rules_of_the_manual(rt: HostRuntime) -> Result<(), Fail> {
    let five = five_tablets()?;
    let primary = five[0];
    for (policy, acks, ackers) in [
        (Durability::None, 0, [false, false, false, false, false]),
        (Durability::SemiSync, 1, [false, true, true, false, false]),
        (Durability::CrossCell, 1, [false, false, true, false, false]),
        (
            Durability::SemiSyncWithRdonlyAck,
            1,
            [false, true, true, true, false],
        ),
        (
            Durability::CrossCellWithRdonlyAck,
            1,
            [false, false, true, true, false],
        ),
    ] {
        assert_eq!(rt; policy.acks(&primary), acks);
        for (other, acker) in five.iter().zip(ackers) {
            assert_eq!(rt; policy.is_acker(&primary, other), acker);
            let rule = match other.kind {
                TabletType::Replica => PromotionRule::Neutral,
                TabletType::Rdonly | TabletType::Spare => PromotionRule::MustNot,
            };
            assert_eq!(rt; policy.rule(other), rule);
        }
    }
    Ok(())
}

/// The subset of five with this number, of 32.
fn subset(number: u32) -> [bool; 5] {
    [
        number % 2 == 1,
        number / 2 % 2 == 1,
        number / 4 % 2 == 1,
        number / 8 % 2 == 1,
        number / 16 % 2 == 1,
    ]
}

fn is_accepted(policy: Durability, five: &[Tablet; 5], primary: &Tablet, set: &[bool; 5]) -> bool {
    let has_primary = five
        .iter()
        .zip(set)
        .any(|(t, within)| *within && t.alias == primary.alias);
    let ackers = five
        .iter()
        .zip(set)
        .filter(|(t, within)| **within && policy.is_acker(primary, t))
        .count();
    has_primary && ackers >= policy.acks(primary) as usize
}

fn is_revoked_by_sets(
    policy: Durability,
    five: &[Tablet; 5],
    primary: &Tablet,
    reached: &[bool; 5],
) -> bool {
    (0..32).all(|number| {
        let set = subset(number);
        let meets = reached.iter().zip(&set).any(|(a, b)| *a && *b);
        meets || !is_accepted(policy, five, primary, &set)
    })
}

/// Over every set of five tablets: the first that may be promoted and for which some accepted set has no reached tablet.
#[test]
fn unrevoked_over_all_sets(rt: HostRuntime) -> Result<(), Fail> {
    let five = five_tablets()?;
    for policy in POLICIES {
        for number in 0..32 {
            let reached = subset(number);
            let mut aliases = Vec::new(rt.alloc());
            for (t, within) in five.iter().zip(&reached) {
                if *within {
                    aliases.push(t.alias)?;
                }
            }
            let first = five
                .iter()
                .find(|t| {
                    policy.rule(t) != PromotionRule::MustNot
                        && !is_revoked_by_sets(policy, &five, t, &reached)
                })
                .map(|t| t.alias);
            assert_eq!(rt; first_unrevoked(&policy, &five, &aliases), first);
        }
    }
    Ok(())
}
