ghost use Rattle.std.specs.Prelude.{◌≡◌, IsTrue, All};
ghost use Rattle.std.specs.Str.{bytes_eq};
ghost use Rattle.std.specs.List.{list_any};
ghost use Rattle.std.specs.declared.cmp.Ordering.TheVariants.{Less};
ghost use Rattle.shard_names.specs.Tablets.{AliasesRise, AreTablets, ServersDiffer, alias_cmp, alias_eq, is_among};
ghost use Rattle.replication.specs.Acks.{aliases_of};

use crate::counting::find_tablet;
use crate::{AckTable, Stream};
use durability::Durability;
use shard_base::OutOfMemory;
use shard_names::{Alias, Tablet, TabletType};
use std::alloc::Global;
use std::process::Abort;
use std::test::Fail;
use uuid::Uuid;

fn tablet(alias: &[u8], last: u8, kind: TabletType) -> Result<Tablet, Fail> {
    let server = Uuid::from_bytes([0, 0, 0, 0, 0, 0, 0x40, 0, 0x80, 0, 0, 0, 0, 0, 1, last]);
    Ok(Tablet {
        alias: Alias::read(alias)?,
        server,
        kind,
    })
}

/// Two cells, and a spare tablet in a third.
fn five_tablets() -> Result<[Tablet; 5], Fail> {
    Ok([
        tablet(b"zone1-100", 0, TabletType::Replica)?,
        tablet(b"zone1-101", 1, TabletType::Replica)?,
        tablet(b"zone2-200", 2, TabletType::Replica)?,
        tablet(b"zone2-201", 3, TabletType::Rdonly)?,
        tablet(b"zone3-300", 4, TabletType::Spare)?,
    ])
}

fn is_below(tablet: &Tablet, others: &[Tablet]) -> bool
    ensures { IsTrue result → All (λ u. alias_cmp tablet.now.alias u.alias ≡ Less) others.now }
{
    others.iter().all(|u| tablet.alias < u.alias)
}

fn is_apart(tablet: &Tablet, others: &[Tablet]) -> bool
    ensures { IsTrue result → All (λ u. IsTrue (bytes_eq tablet.now.server u.server) → ⊥) others.now }
{
    others.iter().all(|u| tablet.server != u.server)
}

fn are_a_shard(tablets: &[Tablet]) -> bool
    ensures rise { IsTrue result → AliasesRise tablets.now }
    ensures differ { IsTrue result → ServersDiffer tablets.now }
{
    match tablets.split_first() {
        Some((first, rest)) => is_below(first, rest) && is_apart(first, rest) && are_a_shard(rest),
        None => true,
    }
}

fn any_of(tablets: &[Tablet], alias: &Alias) -> bool
    ensures { result ≡ list_any (λ t. alias_eq alias.now t.alias) tablets.now }
{
    tablets.iter().any(|tablet| *alias == tablet.alias)
}

#[tactic(auto, using(crate::proofs::TestLemmas::among_aliases))]
fn has_alias(tablets: &[Tablet], alias: &Alias) -> bool
    ensures { result ≡ is_among (aliases_of tablets.now) alias.now }
{
    any_of(tablets, alias)
}

/// Whether the first tablet, as the primary, tells the index once this tablet alone has acknowledged up to `up_to`.
fn told_after(
    rt: &impl Abort,
    alloc: Global,
    policy: &Durability,
    tablets: &[Tablet],
    from: &Alias,
    up_to: u64,
    index: u64,
) -> Result<bool, OutOfMemory> {
    assert!(rt; !tablets.is_empty());
    let primary = &tablets[0].alias;
    assert!(rt; are_a_shard(tablets));
    assert!(rt; has_alias(tablets, from));
    assert!(rt; find_tablet(tablets, primary).is_some());
    let mut table = AckTable::new(alloc, tablets)?;
    table.ack(from, up_to);
    Ok(table.is_told(policy, tablets, primary, index))
}

/// By the manual: which tablets' acknowledgements commit a write of the first replica.
#[test]
fn ackers_one_by_one(rt: HostRuntime) -> Result<(), Fail> {
    let five = five_tablets()?;
    for (policy, told) in [
        (Durability::None, [true, true, true, true, true]),
        (Durability::SemiSync, [false, true, true, false, false]),
        (Durability::CrossCell, [false, false, true, false, false]),
        (
            Durability::SemiSyncWithRdonlyAck,
            [false, true, true, true, false],
        ),
        (
            Durability::CrossCellWithRdonlyAck,
            [false, false, true, true, false],
        ),
    ] {
        for (from, told) in five.iter().zip(told) {
            let after = told_after(&rt, rt.alloc(), &policy, &five, &from.alias, 7, 7)?;
            assert_eq!(rt; after, told);
        }
    }
    Ok(())
}

/// What was acknowledged up to 7 tells 6 and not 8.
#[test]
fn up_to_an_index(rt: HostRuntime) -> Result<(), Fail> {
    let five = five_tablets()?;
    let policy = Durability::SemiSync;
    let from = &five[1].alias;
    assert!(rt; told_after(&rt, rt.alloc(), &policy, &five, from, 7, 6)?);
    assert!(rt; !told_after(&rt, rt.alloc(), &policy, &five, from, 7, 8)?);
    Ok(())
}

fn ack(rt: &impl Abort, table: &mut AckTable, tablets: &[Tablet], from: &Alias, index: u64)
    requires { table.old.aliases ≡ aliases_of tablets.now }
    ensures { table.new.aliases ≡ table.old.aliases }
{
    assert!(rt; has_alias(tablets, from));
    table.ack(from, index);
}

#[test]
fn greater_index_stays(rt: HostRuntime) -> Result<(), Fail> {
    let five = five_tablets()?;
    let mut table = AckTable::new(rt.alloc(), &five)?;
    ack(&rt, &mut table, &five, &five[1].alias, 5);
    ack(&rt, &mut table, &five, &five[1].alias, 3);
    assert_eq!(rt; table.acked(&five[1].alias), 5);
    assert_eq!(rt; table.acked(&five[2].alias), 0);
    Ok(())
}

#[test]
fn clears(rt: HostRuntime) -> Result<(), Fail> {
    let five = five_tablets()?;
    let mut table = AckTable::new(rt.alloc(), &five)?;
    ack(&rt, &mut table, &five, &five[1].alias, 5);
    table.clear();
    assert_eq!(rt; table.acked(&five[1].alias), 0);
    Ok(())
}

#[test]
fn takes_what_it_waits_for(rt: HostRuntime) -> Result<(), Fail> {
    let source = Alias::read(b"zone1-100")?;
    let other = Alias::read(b"zone1-101")?;
    let mut stream = Stream {
        source,
        term: 2,
        next: 4,
    };
    assert!(rt; !stream.accept(&other, 2, 4, 5));
    assert!(rt; !stream.accept(&source, 3, 4, 5));
    assert!(rt; !stream.accept(&source, 2, 5, 5));
    assert_eq!(rt; stream.next, 4);
    assert!(rt; stream.accept(&source, 2, 4, 5));
    assert_eq!(rt; stream.next, 6);
    Ok(())
}
