use crate::{ScriptFault, read_text};
use durability::Durability;
use shard_base::{OutOfMemory, append_pieces};
use shard_names::TabletType;
use std::alloc::Global;
use std::test::Fail;

/// The policy that a text declares, if it is a script.
fn policy_of(alloc: Global, text: &[u8]) -> Result<Option<Durability>, OutOfMemory> {
    match read_text(alloc, text) {
        Ok(script) => Ok(Some(script.policy)),
        Err(ScriptFault::Line { .. }) => Ok(None),
        Err(ScriptFault::OutOfMemory) => Err(OutOfMemory),
    }
}

#[test]
fn reads_the_five_policies(rt: HostRuntime) -> Result<(), Fail> {
    let texts = [
        (b"".as_slice(), Some(Durability::None)),
        (b"shard commerce/0 none".as_slice(), Some(Durability::None)),
        (
            b"shard commerce/0 semi_sync".as_slice(),
            Some(Durability::SemiSync),
        ),
        (
            b"shard commerce/0 cross_cell".as_slice(),
            Some(Durability::CrossCell),
        ),
        (
            b"shard commerce/0 semi_sync_with_rdonly_ack".as_slice(),
            Some(Durability::SemiSyncWithRdonlyAck),
        ),
        (
            b"shard commerce/0 cross_cell_with_rdonly_ack".as_slice(),
            Some(Durability::CrossCellWithRdonlyAck),
        ),
        (b"shard commerce/0 semi-sync".as_slice(), None),
        (b"shard commerce/0 NONE".as_slice(), None),
        (b"shard commerce/0".as_slice(), None),
    ];
    for (text, policy) in texts {
        assert_eq!(rt; policy_of(rt.alloc(), text)?, policy);
    }
    Ok(())
}

/// The type of the one tablet of a script.
fn kind_of(alloc: Global, kind: &[u8]) -> Result<Option<TabletType>, OutOfMemory> {
    let mut text = Vec::new(alloc);
    append_pieces(
        &mut text,
        &[
            b"shard commerce/0 semi_sync\ntablet zone1-100 ".as_slice(),
            kind,
            b" 00000000-0000-4000-8000-000000000100".as_slice(),
        ],
    )?;
    match read_text(alloc, &text) {
        Ok(script) => Ok(script.tablets.as_slice().first().map(|tablet| tablet.kind)),
        Err(ScriptFault::Line { .. }) => Ok(None),
        Err(ScriptFault::OutOfMemory) => Err(OutOfMemory),
    }
}

#[test]
fn reads_the_types_of_tablets(rt: HostRuntime) -> Result<(), Fail> {
    assert_eq!(rt; kind_of(rt.alloc(), b"replica")?, Some(TabletType::Replica));
    assert_eq!(rt; kind_of(rt.alloc(), b"rdonly")?, Some(TabletType::Rdonly));
    assert_eq!(rt; kind_of(rt.alloc(), b"spare")?, Some(TabletType::Spare));
    assert_eq!(rt; kind_of(rt.alloc(), b"master")?, None);
    Ok(())
}

/// The first fault of a script of two tablets with these lines behind them, which begin with line 4: the line and the code.
pub(crate) fn fault_of(alloc: Global, lines: &[u8]) -> Result<Option<(u64, u8)>, OutOfMemory> {
    let mut text = Vec::new(alloc);
    let first = b"tablet zone1-100 replica 00000000-0000-4000-8000-000000000100\n";
    let second = b"tablet zone1-101 replica 00000000-0000-4000-8000-000000000101\n";
    append_pieces(
        &mut text,
        &[
            b"shard commerce/0 none\n".as_slice(),
            first.as_slice(),
            second.as_slice(),
            lines,
        ],
    )?;
    fault_in(alloc, &text)
}

/// The first fault of a text: the line and the code.
pub(crate) fn fault_in(alloc: Global, text: &[u8]) -> Result<Option<(u64, u8)>, OutOfMemory> {
    match read_text(alloc, text) {
        Ok(_) => Ok(None),
        Err(ScriptFault::Line { line, fault }) => Ok(Some((line, fault.code()))),
        Err(ScriptFault::OutOfMemory) => Err(OutOfMemory),
    }
}

#[test]
fn reads_what_is_done_to_tablets_and_messages(rt: HostRuntime) -> Result<(), Fail> {
    let lines = [
        b"write 3 to zone1-101".as_slice(),
        b"show zone1-0000000101".as_slice(),
        b"start w write 1 to zone1-100\nturn w 5\nfinish w".as_slice(),
        b"start s show zone1-100".as_slice(),
        b"local zone1-101\nsettle\n".as_slice(),
        b"crash zone1-100 keep 18446744073709551615\nrestart zone1-100".as_slice(),
        b"cut zone1-100 zone1-101\nmend zone1-101 zone1-100".as_slice(),
        b"cut control zone1-100\nmend zone1-100 control\ncut zone1-100 zone1-100".as_slice(),
        b"lose 0\nrepeat 27".as_slice(),
        b"start p1 write 1\nfinish p1".as_slice(),
        b"start abcdefghijklmn09 write 1".as_slice(),
    ];
    for line in lines {
        assert_eq!(rt; fault_of(rt.alloc(), line)?, None);
    }
    Ok(())
}

#[test]
fn reads_reparents_with_options(rt: HostRuntime) -> Result<(), Fail> {
    let lines = [
        b"PlannedReparentShard commerce/0".as_slice(),
        b"PlannedReparentShard --new-primary zone1-100 commerce/0".as_slice(),
        b"PlannedReparentShard commerce/0 --new-primary=zone9-9 --avoid-primary zone1-100".as_slice(),
        b"PlannedReparentShard --expected-primary=zone1-100 -- commerce/0".as_slice(),
        b"PlannedReparentShard --wait-replicas-timeout 24m commerce/0 --allow-cross-cell-promotion".as_slice(),
        b"EmergencyReparentShard commerce/0".as_slice(),
        b"EmergencyReparentShard commerce/0 -i zone1-100".as_slice(),
        b"EmergencyReparentShard -i=zone1-100,zone1-101 commerce/0".as_slice(),
        b"EmergencyReparentShard -izone1-100,zone9-9,zone1-100 commerce/0".as_slice(),
        b"EmergencyReparentShard --ignore-replicas=zone1-100 commerce/0 --expected-primary zone1-101".as_slice(),
        b"EmergencyReparentShard --prevent-cross-cell-promotion --wait-replicas-timeout=86400s commerce/0".as_slice(),
        b"start p EmergencyReparentShard commerce/0 --new-primary zone1-101\nfinish p".as_slice(),
        b"start p PlannedReparentShard commerce/0 -- \nturn p 3".as_slice(),
    ];
    for line in lines {
        assert_eq!(rt; fault_of(rt.alloc(), line)?, None);
    }
    Ok(())
}

#[test]
fn reads_the_other_commands_of_a_shard(rt: HostRuntime) -> Result<(), Fail> {
    let lines = [
        b"TabletExternallyReparented zone1-101".as_slice(),
        b"TabletExternallyReparented zone9-9".as_slice(),
        b"GetShard commerce/0\nGetTablets commerce/0".as_slice(),
        b"vtorc\n vtorc \nstart v vtorc\nfinish v".as_slice(),
        b"start g GetShard commerce/0\nstart t GetTablets commerce/0\nstart x TabletExternallyReparented zone1-100".as_slice(),
    ];
    for line in lines {
        assert_eq!(rt; fault_of(rt.alloc(), line)?, None);
    }
    Ok(())
}

#[test]
fn passes_over_comments(rt: HostRuntime) -> Result<(), Fail> {
    let texts = [
        b"# a story\n\nwrite 1\n".as_slice(),
        b"  # indented\n\t#\n \t \nsettle".as_slice(),
        b"#no word of its own\nlapse\r\n".as_slice(),
        b"write\t1\n  write  1\t\nshow zone1-100 \r\n".as_slice(),
    ];
    for text in texts {
        assert_eq!(rt; fault_of(rt.alloc(), text)?, None);
    }
    Ok(())
}
