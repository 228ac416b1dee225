use crate::moment::write_moment;
use gtid_sets::{Gtid, GtidSet};
use shard_base::OutOfMemory;
use shard_names::{Alias, Name};
use std::alloc::Global;
use std::process::Abort;
use std::test::Fail;
use uuid::Uuid;

pub(crate) fn alias(rt: &impl Abort, text: &[u8]) -> Alias {
    Alias::read(text).ok().expect(rt, "an alias")
}

pub(crate) fn name(rt: &impl Abort, text: &[u8]) -> Name {
    Name::from_slice(text).expect(rt, "a name")
}

pub(crate) fn gtid(last: u8, number: u64) -> Gtid {
    Gtid {
        server: Uuid::from_bytes([0, 0, 0, 0, 0, 0, 0x40, 0, 0x80, 0, 0, 0, 0, 0, 1, last]),
        number,
    }
}

pub(crate) fn one(alloc: Global, gtid: Gtid) -> Result<GtidSet, OutOfMemory> {
    let mut set = GtidSet::empty(alloc);
    set.add(gtid)?;
    Ok(set)
}

fn moment(alloc: Global, milliseconds: u64) -> Result<Vec<u8>, OutOfMemory> {
    let mut text = Vec::new(alloc);
    write_moment(milliseconds, &mut text)?;
    Ok(text)
}

#[test]
fn prints_moments(rt: HostRuntime) -> Result<(), Fail> {
    let alloc = rt.alloc();
    let start = moment(alloc, 0)?;
    assert_eq!(rt; start.as_slice(), b"1970-01-01T00:00:00.000Z".as_slice());
    let clock = moment(alloc, 1704067200000)?;
    assert_eq!(rt; clock.as_slice(), b"2024-01-01T00:00:00.000Z".as_slice());
    let leap_day = moment(alloc, 1709210096789)?;
    assert_eq!(rt; leap_day.as_slice(), b"2024-02-29T12:34:56.789Z".as_slice());
    let last = moment(alloc, 253370764799999)?;
    assert_eq!(rt; last.as_slice(), b"9998-12-31T23:59:59.999Z".as_slice());
    let later = moment(alloc, 253402300800000)?;
    assert_eq!(rt; later.as_slice(), b"9999-12-31T23:59:59.999Z".as_slice());
    Ok(())
}
