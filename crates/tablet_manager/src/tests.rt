ghost use Rattle.std.specs.Prelude.{◌≡◌, ◌<◌, length, IsTrue, All, Contains};
ghost use Rattle.std.specs.Str.{bytes_eq};
ghost use Rattle.std.specs.List.{list_any};
ghost use Rattle.std.specs.declared.cmp.Ordering.TheVariants.{Less};
ghost use Rattle.shard_names.specs.Tablets.{AliasesRise, AreTablets, ServersDiffer, alias_cmp, alias_eq, is_among};
ghost use Rattle.replication.specs.Acks.{aliases_of};

use crate::{Accepted, Manager, Restarted, Written};
use durability::Durability;
use gtid_sets::{Entry, Gtid, GtidSet, Kind, equal};
use shard_base::OutOfMemory;
use shard_calls::{Answer, Stand};
use shard_names::{Alias, Tablet, TabletType};
use std::alloc::Global;
use std::process::Abort;
use std::test::Fail;
use uuid::Uuid;

fn server(last: u8) -> Uuid {
    Uuid::from_bytes([0, 0, 0, 0, 0, 0, 0x40, 0, 0x80, 0, 0, 0, 0, 0, 1, last])
}

fn tablet(rt: &impl Abort, text: &[u8], last: u8) -> Tablet {
    Tablet {
        alias: Alias::read(text).ok().expect(rt, "an alias"),
        server: server(last),
        kind: TabletType::Replica,
    }
}

fn any_of(tablets: &[Tablet], alias: &Alias) -> bool
    ensures { result ≡ list_any (λ t. alias_eq alias.now t.alias) tablets.now }
{
    tablets.iter().any(|tablet| *alias == tablet.alias)
}

#[tactic(auto, using(crate::proofs::ManagedLemmas::among_map))]
fn has_alias(tablets: &[Tablet], alias: &Alias) -> bool
    ensures { result ≡ is_among (aliases_of tablets.now) alias.now }
{
    any_of(tablets, alias)
}

fn is_below(tablet: &Tablet, others: &[Tablet]) -> bool
    ensures { IsTrue result → All (λ u. alias_cmp tablet.now.alias u.alias ≡ Less) others.now }
{
    others.iter().all(|u| tablet.alias < u.alias)
}

fn is_apart(tablet: &Tablet, others: &[Tablet]) -> bool
    ensures { IsTrue result → All (λ u. IsTrue (bytes_eq tablet.now.server u.server) → ⊥) others.now }
{
    others.iter().all(|u| tablet.server != u.server)
}

fn are_a_shard(tablets: &[Tablet]) -> bool
    ensures rise { IsTrue result → AliasesRise tablets.now }
    ensures differ { IsTrue result → ServersDiffer tablets.now }
{
    match tablets.split_first() {
        Some((first, rest)) => is_below(first, rest) && is_apart(first, rest) && are_a_shard(rest),
        None => true,
    }
}

fn one_of(tablets: &[Tablet], at: usize) -> &Tablet
    requires { at < length tablets.now }
    ensures { Contains tablets.now result.now }
{
    &tablets[at]
}

fn manager_under(
    rt: &impl Abort,
    alloc: Global,
    tablets: &[Tablet],
    policy: Durability,
    at: usize,
) -> Result<Manager, OutOfMemory> {
    assert!(rt; at < tablets.len());
    assert!(rt; are_a_shard(tablets));
    let me = one_of(tablets, at);
    Manager::new(alloc, *me, tablets, policy)
}

fn manager(
    rt: &impl Abort,
    alloc: Global,
    tablets: &[Tablet],
    at: usize,
) -> Result<Manager, OutOfMemory> {
    manager_under(rt, alloc, tablets, Durability::None, at)
}

fn promote(
    rt: &impl Abort,
    manager: &mut Manager,
    term: u64,
    position: &GtidSet,
) -> Result<Answer, OutOfMemory> {
    assert!(rt; !manager.stand().is_down());
    assert!(rt; manager.last_number() < 100);
    manager.promote(term, position)
}

fn write(rt: &impl Abort, manager: &mut Manager, number: u64) -> Result<Written, OutOfMemory> {
    assert!(rt; manager.last_number() < 100);
    manager.write(0, number)
}

fn is_written(written: &Written, last: u8, number: u64) -> bool {
    match written {
        Written::Entry(gtid) => gtid.server == server(last) && gtid.number == number,
        Written::NotPrimary(_) => false,
    }
}

#[test]
fn promotes_and_writes(rt: HostRuntime) -> Result<(), Fail> {
    let alloc = rt.alloc();
    let tablets = [tablet(&rt, b"zone1-100", 0), tablet(&rt, b"zone1-101", 1)];
    let mut primary = manager(&rt, alloc, &tablets, 0)?;
    promote(&rt, &mut primary, 1, &GtidSet::empty(alloc))?;
    let written = write(&rt, &mut primary, 1)?;
    assert!(rt; is_written(&written, 0, 2));
    Ok(())
}

fn row_of(source: &Alias) -> Entry {
    Entry {
        gtid: Gtid {
            server: server(0),
            number: 1,
        },
        kind: Kind::Row {
            term: 1,
            alias: *source,
        },
    }
}

fn follow(
    rt: &impl Abort,
    manager: &mut Manager,
    source: &Alias,
    position: &GtidSet,
) -> Result<Answer, OutOfMemory> {
    assert!(rt; !manager.stand().is_down());
    assert!(rt; *source != manager.me().alias);
    manager.set_source(1, source, 1, position)
}

fn stop(rt: &impl Abort, manager: &mut Manager, term: u64) -> Result<Answer, OutOfMemory> {
    assert!(rt; !manager.stand().is_down());
    manager.stop(term)
}

#[test]
fn follows_until_it_stops(rt: HostRuntime) -> Result<(), Fail> {
    let alloc = rt.alloc();
    let tablets = [tablet(&rt, b"zone1-100", 0), tablet(&rt, b"zone1-101", 1)];
    let source = &tablets[0].alias;
    let mut replica = manager(&rt, alloc, &tablets, 1)?;
    follow(&rt, &mut replica, source, &GtidSet::empty(alloc))?;
    let row = row_of(source);
    assert_eq!(rt; replica.accept(source, 1, 1, 1, &row)?, Accepted::Taken);
    stop(&rt, &mut replica, 2)?;
    assert_eq!(rt; replica.accept(source, 1, 2, 2, &row)?, Accepted::Ignored);
    Ok(())
}

/// The set of the first transaction of the server 0.
fn first_only(alloc: Global) -> Result<GtidSet, OutOfMemory> {
    let mut set = GtidSet::empty(alloc);
    set.add(Gtid {
        server: server(0),
        number: 1,
    })?;
    Ok(set)
}

/// The first of the tablets, as the primary of the term 1.
fn primary(rt: &impl Abort, alloc: Global, tablets: &[Tablet]) -> Result<Manager, OutOfMemory> {
    let mut primary = manager(rt, alloc, tablets, 0)?;
    promote(rt, &mut primary, 1, &GtidSet::empty(alloc))?;
    Ok(primary)
}

fn demote(rt: &impl Abort, manager: &mut Manager, term: u64) -> Result<Answer, OutOfMemory> {
    assert!(rt; !manager.stand().is_down());
    manager.demote(term)
}

fn is_demoted(answer: &Answer, row: u64, set: &GtidSet) -> bool {
    match answer {
        Answer::Demoted { newest, position } => *newest == row && equal(position, set),
        _ => false,
    }
}

#[test]
fn demotes(rt: HostRuntime) -> Result<(), Fail> {
    let alloc = rt.alloc();
    let tablets = [tablet(&rt, b"zone1-100", 0), tablet(&rt, b"zone1-101", 1)];
    let mut primary = primary(&rt, alloc, &tablets)?;
    let answer = demote(&rt, &mut primary, 2)?;
    assert!(rt; is_demoted(&answer, 1, &first_only(alloc)?));
    assert_eq!(rt; *primary.stand(), Stand::Demoted { term: 1, by: 2 });
    Ok(())
}

fn ack(rt: &impl Abort, manager: &mut Manager, from: &Alias, term: u64, index: u64) {
    assert!(rt; has_alias(manager.tablets(), from));
    manager.ack(from, term, index);
}

fn wait_told(rt: &impl Abort, manager: &mut Manager, term: u64) -> Result<Answer, OutOfMemory> {
    assert!(rt; !manager.stand().is_down());
    manager.wait_told(term)
}

fn is_told(answer: &Answer) -> bool {
    match answer {
        Answer::Told => true,
        _ => false,
    }
}

fn is_not_told(answer: &Answer) -> bool {
    match answer {
        Answer::NotTold => true,
        _ => false,
    }
}

#[test]
fn tells_what_is_committed(rt: HostRuntime) -> Result<(), Fail> {
    let alloc = rt.alloc();
    let tablets = [tablet(&rt, b"zone1-100", 0), tablet(&rt, b"zone1-101", 1)];
    let mut primary = primary(&rt, alloc, &tablets)?;
    assert!(rt; primary.is_told(1));
    assert!(rt; is_told(&wait_told(&rt, &mut primary, 1)?));
    Ok(())
}

fn feed(rt: &impl Abort, manager: &mut Manager, term: u64) -> Result<Answer, OutOfMemory> {
    assert!(rt; !manager.stand().is_down());
    manager.feed(term)
}

fn is_feeding(answer: &Answer) -> bool {
    match answer {
        Answer::Feeding => true,
        _ => false,
    }
}

#[test]
fn feeds_once_stopped(rt: HostRuntime) -> Result<(), Fail> {
    let alloc = rt.alloc();
    let tablets = [tablet(&rt, b"zone1-100", 0), tablet(&rt, b"zone1-101", 1)];
    let mut source = manager(&rt, alloc, &tablets, 1)?;
    stop(&rt, &mut source, 2)?;
    assert!(rt; is_feeding(&feed(&rt, &mut source, 2)?));
    assert_eq!(rt; *source.stand(), Stand::Feeder { term: 2 });
    Ok(())
}

fn wait_for(
    rt: &impl Abort,
    manager: &mut Manager,
    term: u64,
    position: &GtidSet,
) -> Result<Answer, OutOfMemory> {
    assert!(rt; !manager.stand().is_down());
    manager.wait_for(term, position)
}

fn is_held(answer: &Answer) -> bool {
    match answer {
        Answer::Holds => true,
        _ => false,
    }
}

#[test]
fn tells_what_it_holds(rt: HostRuntime) -> Result<(), Fail> {
    let alloc = rt.alloc();
    let tablets = [tablet(&rt, b"zone1-100", 0), tablet(&rt, b"zone1-101", 1)];
    let mut primary = primary(&rt, alloc, &tablets)?;
    let answer = wait_for(&rt, &mut primary, 1, &first_only(alloc)?)?;
    assert!(rt; is_held(&answer));
    Ok(())
}

/// The first of the tablets, under semi-synchronous replication, as the primary of the term 1.
fn semi_sync(rt: &impl Abort, alloc: Global, tablets: &[Tablet]) -> Result<Manager, OutOfMemory> {
    let mut primary = manager_under(rt, alloc, tablets, Durability::SemiSync, 0)?;
    promote(rt, &mut primary, 1, &GtidSet::empty(alloc))?;
    Ok(primary)
}

/// The row waits for an acknowledgement of another replica.
#[test]
fn row_is_not_told(rt: HostRuntime) -> Result<(), Fail> {
    let alloc = rt.alloc();
    let tablets = [tablet(&rt, b"zone1-100", 0), tablet(&rt, b"zone1-101", 1)];
    let mut primary = semi_sync(&rt, alloc, &tablets)?;
    assert!(rt; is_not_told(&wait_told(&rt, &mut primary, 1)?));
    Ok(())
}

/// The acknowledgement of an index commits it, and none behind it.
#[test]
fn acknowledged_is_told(rt: HostRuntime) -> Result<(), Fail> {
    let alloc = rt.alloc();
    let tablets = [tablet(&rt, b"zone1-100", 0), tablet(&rt, b"zone1-101", 1)];
    let mut primary = semi_sync(&rt, alloc, &tablets)?;
    ack(&rt, &mut primary, &tablets[1].alias, 1, 1);
    assert!(rt; primary.is_row_told(1));
    assert!(rt; !primary.is_told(2));
    Ok(())
}

fn status(rt: &impl Abort, manager: &Manager) -> Result<Answer, OutOfMemory> {
    assert!(rt; !manager.stand().is_down());
    manager.status()
}

/// Whether it is the status of a primary that has entered the term and done nothing since.
fn is_entered(answer: &Answer, of: u64, set: &GtidSet) -> bool {
    match answer {
        Answer::Status {
            seen,
            promised,
            stand,
            newest,
            position,
        } => {
            *seen == of
                && *promised == of
                && stand.is_primary_of(of)
                && *newest == of
                && equal(position, set)
        }
        _ => false,
    }
}

#[test]
fn tells_how_it_stands(rt: HostRuntime) -> Result<(), Fail> {
    let alloc = rt.alloc();
    let tablets = [tablet(&rt, b"zone1-100", 0), tablet(&rt, b"zone1-101", 1)];
    let primary = primary(&rt, alloc, &tablets)?;
    let answer = status(&rt, &primary)?;
    assert!(rt; is_entered(&answer, 1, &first_only(alloc)?));
    Ok(())
}

fn local_write(rt: &impl Abort, manager: &mut Manager) -> Result<Written, OutOfMemory> {
    assert!(rt; manager.last_number() < 100);
    manager.local_write()
}

fn is_refused_down(written: &Written) -> bool {
    match written {
        Written::Entry(_) => false,
        Written::NotPrimary(stand) => stand.is_down(),
    }
}

#[test]
fn writes_round_the_primary(rt: HostRuntime) -> Result<(), Fail> {
    let alloc = rt.alloc();
    let tablets = [tablet(&rt, b"zone1-100", 0), tablet(&rt, b"zone1-101", 1)];
    let mut replica = manager(&rt, alloc, &tablets, 1)?;
    let written = local_write(&rt, &mut replica)?;
    assert!(rt; is_written(&written, 1, 1));
    replica.crash();
    let written = local_write(&rt, &mut replica)?;
    assert!(rt; is_refused_down(&written));
    Ok(())
}

#[test]
fn restarts_stopped(rt: HostRuntime) -> Result<(), Fail> {
    let alloc = rt.alloc();
    let tablets = [tablet(&rt, b"zone1-100", 0), tablet(&rt, b"zone1-101", 1)];
    let mut primary = primary(&rt, alloc, &tablets)?;
    primary.crash();
    assert_eq!(rt; primary.restart()?, Restarted::Up);
    assert_eq!(rt; *primary.stand(), Stand::Stopped);
    assert_eq!(rt; primary.log().promised(), 1);
    Ok(())
}
