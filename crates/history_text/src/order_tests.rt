//! The words of commands in histories.

use crate::tests::{alias, commerce, line_of, name};
use shard_base::{Items, OutOfMemory};
use shard_calls::{Command, Event, Reply};
use shard_names::{Alias, Name};
use std::alloc::Global;
use std::process::Abort;
use std::test::Fail;

fn begun_line(alloc: Global, actor: Name, command: Command) -> Result<Vec<u8>, OutOfMemory> {
    line_of(
        alloc,
        Event::Begin { actor, command },
        Reply::Begun { command: 7 },
    )
}

#[test]
fn prints_options_of_planned_reparents(rt: HostRuntime) -> Result<(), Fail> {
    let command = Command::Planned {
        shard: commerce(&rt),
        new_primary: Some(alias(&rt, b"zone1-100")),
        avoid: Some(alias(&rt, b"zone1-101")),
        expected: Some(alias(&rt, b"zone2-200")),
        timeout: Some(15_000),
        allow_cross_cell: true,
    };
    let text = begun_line(rt.alloc(), name(&rt, b"p"), command)?;
    let want =
        b"begin p PlannedReparentShard commerce/0 --new-primary zone1-0000000100 --avoid-primary zone1-0000000101 \
                 --expected-primary zone2-0000000200 --wait-replicas-timeout 15000ms --allow-cross-cell-promotion = command 7\n";
    assert_eq!(rt; text.as_slice(), want.as_slice());
    Ok(())
}

/// Some tablets, one of them twice.
fn ignored(rt: &impl Abort, alloc: Global) -> Result<Items<Alias>, OutOfMemory> {
    let mut aliases = Items::new(alloc);
    aliases.push(alias(rt, b"zone1-102"))?;
    aliases.push(alias(rt, b"zone1-101"))?;
    aliases.push(alias(rt, b"zone1-102"))?;
    Ok(aliases)
}

#[test]
fn prints_options_of_emergency_reparents(rt: HostRuntime) -> Result<(), Fail> {
    let command = Command::Emergency {
        shard: commerce(&rt),
        new_primary: Some(alias(&rt, b"zone1-100")),
        ignored: ignored(&rt, rt.alloc())?,
        expected: Some(alias(&rt, b"zone2-200")),
        timeout: Some(0),
        prevent_cross_cell: true,
    };
    let text = begun_line(rt.alloc(), name(&rt, b"e"), command)?;
    let want = b"begin e EmergencyReparentShard commerce/0 --new-primary zone1-0000000100 \
                 --ignore-replicas zone1-0000000102,zone1-0000000101,zone1-0000000102 \
                 --expected-primary zone2-0000000200 --wait-replicas-timeout 0ms --prevent-cross-cell-promotion = command 7\n";
    assert_eq!(rt; text.as_slice(), want.as_slice());
    Ok(())
}

#[test]
fn prints_only_options_that_are_given(rt: HostRuntime) -> Result<(), Fail> {
    let alloc = rt.alloc();
    let command = Command::Emergency {
        shard: commerce(&rt),
        new_primary: None,
        ignored: Items::new(alloc),
        expected: None,
        timeout: None,
        prevent_cross_cell: false,
    };
    let text = begun_line(alloc, name(&rt, b"main"), command)?;
    let want = b"begin main EmergencyReparentShard commerce/0 = command 7\n";
    assert_eq!(rt; text.as_slice(), want.as_slice());
    Ok(())
}

#[test]
fn prints_writes(rt: HostRuntime) -> Result<(), Fail> {
    let alloc = rt.alloc();
    let text = begun_line(alloc, name(&rt, b"w"), Command::Write { to: None })?;
    assert_eq!(rt;
        text.as_slice(),
        b"begin w write 1 = command 7\n".as_slice()
    );
    let to = Some(alias(&rt, b"zone1-100"));
    let text = begun_line(alloc, name(&rt, b"w"), Command::Write { to })?;
    let want = b"begin w write 1 to zone1-0000000100 = command 7\n";
    assert_eq!(rt; text.as_slice(), want.as_slice());
    Ok(())
}

#[test]
fn prints_commands_without_options(rt: HostRuntime) -> Result<(), Fail> {
    let alloc = rt.alloc();
    let text = begun_line(alloc, name(&rt, b"main"), Command::Vtorc)?;
    assert_eq!(rt;
        text.as_slice(),
        b"begin main vtorc = command 7\n".as_slice()
    );
    let shown = alias(&rt, b"zone1-100");
    let text = begun_line(alloc, name(&rt, b"main"), Command::Show { alias: shown })?;
    let want = b"begin main show zone1-0000000100 = command 7\n";
    assert_eq!(rt; text.as_slice(), want.as_slice());
    let other = alias(&rt, b"zone1-100");
    let text = begun_line(alloc, name(&rt, b"x"), Command::External { alias: other })?;
    let want = b"begin x TabletExternallyReparented zone1-0000000100 = command 7\n";
    assert_eq!(rt; text.as_slice(), want.as_slice());
    Ok(())
}

#[test]
fn prints_commands_that_ask_of_a_shard(rt: HostRuntime) -> Result<(), Fail> {
    let alloc = rt.alloc();
    let shard = commerce(&rt);
    let text = begun_line(alloc, name(&rt, b"main"), Command::GetShard { shard })?;
    let want = b"begin main GetShard commerce/0 = command 7\n";
    assert_eq!(rt; text.as_slice(), want.as_slice());
    let shard = commerce(&rt);
    let text = begun_line(alloc, name(&rt, b"main"), Command::GetTablets { shard })?;
    let want = b"begin main GetTablets commerce/0 = command 7\n";
    assert_eq!(rt; text.as_slice(), want.as_slice());
    Ok(())
}
