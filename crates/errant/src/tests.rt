use crate::{SplitBrain, errant_of, find_winner, winner};
use gtid_sets::{Gtid, GtidSet, Held};
use shard_names::Alias;
use std::alloc::Global;
use std::test::Fail;
use uuid::Uuid;

/// The transactions 1 to `last` of one server, and `extra` of another, if it is not 0.
fn held(alloc: Global, alias: &[u8], newest: u64, last: u64, extra: u64) -> Result<Held, Fail> {
    let alias = Alias::read(alias)?;
    let mut position = GtidSet::empty(alloc);
    for number in 1..=last {
        position.add(Gtid {
            server: Uuid::from_bytes([1; 16]),
            number,
        })?;
    }
    if extra > 0 {
        position.add(Gtid {
            server: Uuid::from_bytes([2; 16]),
            number: extra,
        })?;
    }
    Ok(Held {
        alias,
        newest,
        position,
    })
}

/// A later term overrides a longer log.
#[test]
fn newest_row_comes_before_size(rt: HostRuntime) -> Result<(), Fail> {
    let alloc = rt.alloc();
    let longer = held(alloc, b"zone1-100", 1, 5, 0)?;
    let later = held(alloc, b"zone1-101", 2, 3, 0)?;
    let helds = [longer, later];
    let won = match find_winner(&helds) {
        Some(held) => held.alias.uid,
        None => 0,
    };
    assert_eq!(rt; won, 101);
    Ok(())
}

/// Of two logs of one term neither of which has the other there is none ahead.
#[test]
fn neither_has_the_other(rt: HostRuntime) -> Result<(), Fail> {
    let alloc = rt.alloc();
    let first = held(alloc, b"zone1-100", 1, 3, 7)?;
    let second = held(alloc, b"zone1-101", 1, 4, 0)?;
    let helds = [first, second];
    let split = match winner(&helds) {
        Ok(_) => (0, 0),
        Err(SplitBrain { a, b }) => (a.uid, b.uid),
    };
    assert_eq!(rt; split.0, 100);
    assert_eq!(rt; split.1, 101);
    Ok(())
}

/// What a tablet has beyond its primary is named, and nothing else.
#[test]
fn excess_is_what_the_primary_lacks(rt: HostRuntime) -> Result<(), Fail> {
    let alloc = rt.alloc();
    let primary = held(alloc, b"zone1-100", 1, 4, 0)?;
    let within = held(alloc, b"zone1-101", 1, 3, 0)?;
    let beyond = held(alloc, b"zone1-102", 1, 3, 7)?;
    let helds = [within, beyond];
    let errant = errant_of(alloc, &primary.position, &helds)?;
    assert_eq!(rt; errant.len(), 1);
    let Some((excess, _)) = errant.as_slice().split_first() else {
        return Ok(());
    };
    assert_eq!(rt; excess.alias.uid, 102);
    assert_eq!(rt; excess.extra.count(), 1);
    Ok(())
}
