use crate::tests::{fault_in, fault_of};
use shard_base::OutOfMemory;
use std::alloc::Global;
use std::test::Fail;

#[test]
fn finds_faults_of_declarations(rt: HostRuntime) -> Result<(), Fail> {
    let faults = [
        (
            b"tablet zone1-100 replica 00000000-0000-4000-8000-000000000100".as_slice(),
            (1, 6),
        ),
        (b"clock 2024-01-01T00:00:00Z".as_slice(), (1, 6)),
        (b"write 1".as_slice(), (1, 6)),
        (b"history".as_slice(), (1, 11)),
        (b"jump".as_slice(), (1, 1)),
        (b"shard commerce/0 semi-sync".as_slice(), (1, 4)),
        (b"shard commerce none".as_slice(), (1, 7)),
        (b"shard commerce/0".as_slice(), (1, 7)),
        (b"shard commerce/0 none more".as_slice(), (1, 7)),
        (
            b"shard commerce/0 none\nshard commerce/0 none".as_slice(),
            (2, 5),
        ),
        (
            b"shard commerce/0 none\nlapse\nshard commerce/0 none".as_slice(),
            (3, 10),
        ),
        (
            b"shard commerce/0 none\nlapse\nclock 2024-01-01T00:00:00Z".as_slice(),
            (3, 10),
        ),
        (
            b"shard commerce/0 none\nclock 2024-02-29T23:59:59.999Z\nclock 2024-02-29T00:00:00Z".as_slice(),
            (3, 5),
        ),
        (
            b"shard commerce/0 none\nclock 2023-02-29T00:00:00Z".as_slice(),
            (2, 9),
        ),
        (
            b"shard commerce/0 none\nclock 2024-01-01T00:00:60Z".as_slice(),
            (2, 9),
        ),
        (
            b"shard commerce/0 none\nclock 2024-01-01T00:00:00.00Z".as_slice(),
            (2, 9),
        ),
        (
            b"shard commerce/0 none\nclock 2024-13-01T00:00:00Z".as_slice(),
            (2, 9),
        ),
        (
            b"shard commerce/0 none\nclock 2024-01-01 00:00:00Z".as_slice(),
            (2, 7),
        ),
        (
            b"shard commerce/0 none\nclock 1969-12-31T23:59:59Z".as_slice(),
            (2, 8),
        ),
        (
            b"shard commerce/0 none\nclock 9001-01-01T00:00:00Z".as_slice(),
            (2, 8),
        ),
        (
            b"shard commerce/0 none\nclock 9000-12-31T23:59:59.999Z\nclock".as_slice(),
            (3, 7),
        ),
    ];
    for (text, fault) in faults {
        assert_eq!(rt; fault_in(rt.alloc(), text)?, Some(fault));
    }
    Ok(())
}

#[test]
fn finds_faults_of_lines(rt: HostRuntime) -> Result<(), Fail> {
    let faults = [
        (
            b"tablet zone1-102 master 00000000-0000-4000-8000-000000000102".as_slice(),
            (4, 1),
        ),
        (b"tablet zone1-102 master".as_slice(), (4, 1)),
        (b"tablet zone1-102 replica".as_slice(), (4, 7)),
        (b"tablet zone-x replica U".as_slice(), (4, 2)),
        (b"tablet zone1-102 spare U102".as_slice(), (4, 3)),
        (
            b"tablet zone1-0000000101 rdonly 00000000-0000-4000-8000-000000000102".as_slice(),
            (4, 5),
        ),
        (
            b"tablet zone1-102 replica 00000000-0000-4000-8000-000000000101".as_slice(),
            (4, 5),
        ),
        (b"lapse\ntablet zone1-100 master U".as_slice(), (5, 1)),
        (b"lapse\ntablet zone1-100 replica U".as_slice(), (5, 10)),
        (b"settle\nlocal zone1-102".as_slice(), (5, 6)),
        (b"show zone1-102".as_slice(), (4, 6)),
        (b"show zone1".as_slice(), (4, 2)),
        (b"write 1 to zone1-102".as_slice(), (4, 6)),
        (b"write 1 zone1-100".as_slice(), (4, 1)),
        (b"write 1 to".as_slice(), (4, 7)),
        (b"write 0 to zone1-100".as_slice(), (4, 7)),
        (b"write 10001".as_slice(), (4, 8)),
        (b"write 10001 zone1-100".as_slice(), (4, 8)),
        (b"write 18446744073709551616".as_slice(), (4, 7)),
        (b"write one to -".as_slice(), (4, 7)),
        (
            b"cut control zone1-100\ncut control control".as_slice(),
            (5, 2),
        ),
        (b"mend zone1-100 zone1-102".as_slice(), (4, 6)),
        (b"mend zone1-100".as_slice(), (4, 7)),
        (b"crash zone1-100 0".as_slice(), (4, 1)),
        (b"crash zone1-100".as_slice(), (4, 7)),
        (
            b"crash zone1-100 keep 18446744073709551616".as_slice(),
            (4, 7),
        ),
        (b"lose 1\nrepeat -1".as_slice(), (5, 7)),
        (b"tick 86401s".as_slice(), (4, 8)),
        (b"tick 1000000000ms".as_slice(), (4, 9)),
        (b"tick 5".as_slice(), (4, 9)),
        (b"tick".as_slice(), (4, 7)),
        (b"tick 1441m 5".as_slice(), (4, 8)),
        (b"actor p".as_slice(), (4, 11)),
        (b"end".as_slice(), (4, 11)),
        (b"history".as_slice(), (4, 11)),
        (b"begin main write 1".as_slice(), (4, 1)),
        (b"faildisk zone1-100 1".as_slice(), (4, 1)),
    ];
    for (text, fault) in faults {
        assert_eq!(rt; fault_of(rt.alloc(), text)?, Some(fault));
    }
    Ok(())
}

#[test]
fn finds_faults_of_names_and_bytes(rt: HostRuntime) -> Result<(), Fail> {
    let faults = [
        (b"start w write 2 to zone1-100".as_slice(), (4, 7)),
        (b"start w write 10001".as_slice(), (4, 8)),
        (b"start w settle".as_slice(), (4, 1)),
        (b"start w start v write 1".as_slice(), (4, 1)),
        (b"start w".as_slice(), (4, 7)),
        (b"start".as_slice(), (4, 7)),
        (b"start P1 write 1".as_slice(), (4, 7)),
        (b"start 1p write 1".as_slice(), (4, 7)),
        (b"start p-1 write 1".as_slice(), (4, 7)),
        (b"start abcdefghijklmn019 write 1".as_slice(), (4, 7)),
        (b"start control write 1".as_slice(), (4, 7)),
        (b"start main jump".as_slice(), (4, 1)),
        (b"start p write 1\nstart p write 1".as_slice(), (5, 5)),
        (b"start p write 1\nstart p write 2".as_slice(), (5, 7)),
        (b"turn p 1".as_slice(), (4, 6)),
        (b"finish p".as_slice(), (4, 6)),
        (b"finish main".as_slice(), (4, 7)),
        (b"start p write 1\nturn p 1000001".as_slice(), (5, 7)),
        (b"start p write 1\nturn p 0".as_slice(), (5, 7)),
        (b"start p vtorc\nturn p".as_slice(), (5, 7)),
        (b"# a story\n\nwrit 1".as_slice(), (6, 1)),
        (b"write 1 # twice".as_slice(), (4, 1)),
        (b"# caf\xc3\xa9\nwrite 1".as_slice(), (4, 1)),
        (b"write 1\r".as_slice(), (4, 1)),
        (b"settle\r\r\n".as_slice(), (4, 1)),
        (b"set\rtle\n".as_slice(), (4, 1)),
        (b"\x0bsettle\n".as_slice(), (4, 1)),
    ];
    for (text, fault) in faults {
        assert_eq!(rt; fault_of(rt.alloc(), text)?, Some(fault));
    }
    Ok(())
}

#[test]
fn finds_faults_of_commands(rt: HostRuntime) -> Result<(), Fail> {
    let faults = [
        (b"PlannedReparentShard".as_slice(), (4, 7)),
        (b"PlannedReparentShard commerce/1".as_slice(), (4, 6)),
        (b"PlannedReparentShard commerce".as_slice(), (4, 7)),
        (
            b"PlannedReparentShard commerce/0 commerce/0".as_slice(),
            (4, 7),
        ),
        (
            b"PlannedReparentShard commerce/0 --new-primary".as_slice(),
            (4, 7),
        ),
        (
            b"PlannedReparentShard commerce/0 --new-primary=".as_slice(),
            (4, 2),
        ),
        (
            b"PlannedReparentShard commerce/0 --new-primary -zone1-100".as_slice(),
            (4, 7),
        ),
        (
            b"PlannedReparentShard commerce/0 --new-primary=-zone1-100".as_slice(),
            (4, 7),
        ),
        (
            b"PlannedReparentShard commerce/0 --new-primary zone1-100 --new-primary=zone1-100".as_slice(),
            (4, 7),
        ),
        (
            b"PlannedReparentShard commerce/0 --new-prim zone1-100".as_slice(),
            (4, 7),
        ),
        (
            b"PlannedReparentShard commerce/0 -- --new-primary zone1-100".as_slice(),
            (4, 7),
        ),
        (
            b"PlannedReparentShard commerce/0 --wait-replicas-timeout 86401s".as_slice(),
            (4, 8),
        ),
        (
            b"PlannedReparentShard commerce/0 --wait-replicas-timeout 15".as_slice(),
            (4, 9),
        ),
        (
            b"PlannedReparentShard commerce/0 --wait-replicas-timeout=".as_slice(),
            (4, 9),
        ),
        (
            b"PlannedReparentShard commerce/0 --foo --wait-replicas-timeout 1441m".as_slice(),
            (4, 8),
        ),
        (
            b"PlannedReparentShard commerce/0 --new-primary zone --wait-replicas-timeout 15".as_slice(),
            (4, 2),
        ),
        (
            b"PlannedReparentShard commerce/0 --allow-cross-cell-promotion --allow-cross-cell-promotion".as_slice(),
            (4, 7),
        ),
        (
            b"PlannedReparentShard commerce/0 --allow-cross-cell-promotion=true".as_slice(),
            (4, 7),
        ),
        (
            b"PlannedReparentShard commerce/0 --prevent-cross-cell-promotion".as_slice(),
            (4, 7),
        ),
        (
            b"PlannedReparentShard commerce/0 -i zone1-100".as_slice(),
            (4, 7),
        ),
        (
            b"PlannedReparentShard commerce/1 --new-primary zone".as_slice(),
            (4, 2),
        ),
        (b"EmergencyReparentShard commerce/0 -i".as_slice(), (4, 7)),
        (b"EmergencyReparentShard commerce/0 -i=".as_slice(), (4, 2)),
        (
            b"EmergencyReparentShard commerce/0 -i zone1-100,".as_slice(),
            (4, 2),
        ),
        (
            b"EmergencyReparentShard commerce/0 -i-x-100".as_slice(),
            (4, 7),
        ),
        (
            b"EmergencyReparentShard commerce/0 -ignore".as_slice(),
            (4, 2),
        ),
        (
            b"EmergencyReparentShard commerce/0 -i zone1-100 --ignore-replicas zone1-101".as_slice(),
            (4, 7),
        ),
        (
            b"EmergencyReparentShard commerce/0 --avoid-primary zone1-100".as_slice(),
            (4, 7),
        ),
        (
            b"EmergencyReparentShard commerce/0 --allow-cross-cell-promotion".as_slice(),
            (4, 7),
        ),
        (
            b"TabletExternallyReparented -- zone1-100".as_slice(),
            (4, 7),
        ),
        (b"TabletExternallyReparented".as_slice(), (4, 7)),
        (b"TabletExternallyReparented zone".as_slice(), (4, 2)),
        (b"GetShard commerce/1".as_slice(), (4, 6)),
        (b"GetTablets".as_slice(), (4, 7)),
        (b"GetTablets commerce".as_slice(), (4, 7)),
        (b"show -- zone1-100".as_slice(), (4, 7)),
        (b"vtorc --".as_slice(), (4, 7)),
        (b"vtorc 1".as_slice(), (4, 7)),
        (b"start v vtorc --".as_slice(), (4, 7)),
        (b"VTOrc".as_slice(), (4, 1)),
    ];
    for (text, fault) in faults {
        assert_eq!(rt; fault_of(rt.alloc(), text)?, Some(fault));
    }
    Ok(())
}

/// A script with lines that are made by this from their numbers, from 10 on and below this end.
fn script_of(
    alloc: Global,
    end: u8,
    first: &[u8],
    middle: &[u8],
    last: &[u8],
) -> Result<Vec<u8>, OutOfMemory> {
    let mut text = Vec::from_slice(alloc, b"shard commerce/0 none\n")?;
    for number in 10..end {
        let digits = [b'0' + number / 10, b'0' + number % 10];
        text.extend_from_slice(first)?;
        text.extend_from_slice(&digits)?;
        text.extend_from_slice(middle)?;
        text.extend_from_slice(&digits)?;
        text.extend_from_slice(last)?;
    }
    Ok(text)
}

#[test]
fn has_limits(rt: HostRuntime) -> Result<(), Fail> {
    let alloc = rt.alloc();
    let first = b"tablet zone1-".as_slice();
    let middle = b" replica 00000000-0000-4000-8000-0000000000".as_slice();
    let tablets = script_of(alloc, 43, first, middle, b"\n")?;
    assert_eq!(rt; fault_in(alloc, &tablets)?, Some((34, 8)));
    let tablets = script_of(alloc, 42, first, middle, b"\n")?;
    assert_eq!(rt; fault_in(alloc, &tablets)?, None);
    let names = script_of(alloc, 27, b"start p", b" vtorc # ", b"\n")?;
    assert_eq!(rt; fault_in(alloc, &names)?, Some((2, 7)));
    let names = script_of(alloc, 27, b"start p", b" write 1\n#", b"\n")?;
    assert_eq!(rt; fault_in(alloc, &names)?, Some((34, 8)));
    let names = script_of(alloc, 26, b"start p", b" write 1\n#", b"\n")?;
    assert_eq!(rt; fault_in(alloc, &names)?, None);
    Ok(())
}

#[test]
fn limits_the_bytes_of_a_line(rt: HostRuntime) -> Result<(), Fail> {
    let mut text = Vec::from_slice(rt.alloc(), b"# ")?;
    for _ in 0..1022 {
        text.push(b'-')?;
    }
    assert_eq!(rt; fault_of(rt.alloc(), &text)?, None);
    text.push(b'\xff')?;
    assert_eq!(rt; fault_of(rt.alloc(), &text)?, Some((4, 8)));
    Ok(())
}
