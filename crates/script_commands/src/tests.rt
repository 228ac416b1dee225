use crate::command_of;
use crate::number::read_duration;
use shard_base::OutOfMemory;
use shard_calls::Command;
use std::alloc::Global;
use std::test::Fail;

#[test]
fn reads_durations_of_at_most_a_day(rt: HostRuntime) -> Result<(), Fail> {
    assert_eq!(rt; read_duration(b"0s"), Some(0));
    assert_eq!(rt; read_duration(b"90m"), Some(5400000));
    assert_eq!(rt; read_duration(b"86400s"), Some(86400000));
    assert_eq!(rt; read_duration(b"86401s"), None);
    assert_eq!(rt; read_duration(b"1000000000ms"), None);
    assert_eq!(rt; read_duration(b"5"), None);
    assert_eq!(rt; read_duration(b"ms"), None);
    Ok(())
}

/// How many tablets the words of an emergency reparent leave out, and the timeout.
fn emergency(alloc: Global, words: &[&[u8]]) -> Result<Option<(usize, Option<u64>)>, OutOfMemory> {
    let Some(given) = command_of(alloc, words)? else {
        return Ok(None);
    };
    match given.command {
        Command::Emergency {
            ignored,
            timeout,
            ..
        } => Ok(Some((ignored.len(), timeout))),
        _ => Ok(None),
    }
}

#[test]
fn keeps_the_tablets_that_are_left_out(rt: HostRuntime) -> Result<(), Fail> {
    let apart = [
        b"EmergencyReparentShard".as_slice(),
        b"-i",
        b"z-1,z-2,z-1",
        b"a/b",
        b"--wait-replicas-timeout=2s",
    ];
    assert_eq!(rt; emergency(rt.alloc(), &apart)?, Some((3, Some(2000))));
    let joined = [b"EmergencyReparentShard".as_slice(), b"-iz-1,z-2", b"a/b"];
    assert_eq!(rt; emergency(rt.alloc(), &joined)?, Some((2, None)));
    let none = [b"EmergencyReparentShard".as_slice(), b"a/b"];
    assert_eq!(rt; emergency(rt.alloc(), &none)?, Some((0, None)));
    Ok(())
}

/// Whether the words give a look by `vtorc`, once.
fn is_vtorc(alloc: Global, words: &[&[u8]]) -> Result<bool, OutOfMemory> {
    let Some(given) = command_of(alloc, words)? else {
        return Ok(false);
    };
    match given.command {
        Command::Vtorc => Ok(given.count == 1),
        _ => Ok(false),
    }
}

#[test]
fn vtorc_is_one_word(rt: HostRuntime) -> Result<(), Fail> {
    assert_eq!(rt; is_vtorc(rt.alloc(), &[b"vtorc".as_slice()])?, true);
    assert_eq!(rt; is_vtorc(rt.alloc(), &[b"vtorc".as_slice(), b"--"])?, false);
    assert_eq!(rt; is_vtorc(rt.alloc(), &[b"VTOrc".as_slice()])?, false);
    assert_eq!(rt; is_vtorc(rt.alloc(), &[b"write".as_slice()])?, false);
    Ok(())
}
