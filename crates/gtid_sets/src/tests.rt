use crate::{
    Gtid, GtidSet, Interval, ReadFault, SetFault, covers, equal, minus, read_position, read_set,
    union, write_position, write_set,
};
use shard_base::OutOfMemory;
use std::alloc::Global;
use std::test::Fail;
use uuid::Uuid;

/// The server 00000000-0000-4000-8000-0000000001NN, where NN is the last byte in hexadecimal digits.
fn server(last: u8) -> Uuid {
    Uuid::from_bytes([0, 0, 0, 0, 0, 0, 0x40, 0, 0x80, 0, 0, 0, 0, 0, 1, last])
}

fn set_of(alloc: Global, gtids: &[(u8, u64)]) -> Result<GtidSet, OutOfMemory> {
    let mut set = GtidSet::empty(alloc);
    for (last, number) in gtids {
        set.add(Gtid {
            server: server(*last),
            number: *number,
        })?;
    }
    Ok(set)
}

fn text_of(alloc: Global, set: &GtidSet) -> Result<Vec<u8>, OutOfMemory> {
    let mut text = Vec::new(alloc);
    write_set(set, &mut text)?;
    Ok(text)
}

fn position_of(alloc: Global, set: &GtidSet) -> Result<Vec<u8>, OutOfMemory> {
    let mut text = Vec::new(alloc);
    write_position(set, &mut text)?;
    Ok(text)
}

#[test]
fn prints_sets_as_mysql_does(rt: HostRuntime) -> Result<(), Fail> {
    let alloc = rt.alloc();
    let set = set_of(
        alloc,
        &[
            (1, 1),
            (1, 2),
            (1, 3),
            (1, 5),
            (0, 4),
            (0, 6),
            (0, 5),
            (0, 7),
            (0, 4),
        ],
    )?;
    assert_eq!(rt; set.count(), 8);
    let text = text_of(alloc, &set)?;
    let want =
        b"00000000-0000-4000-8000-000000000100:4-7,00000000-0000-4000-8000-000000000101:1-3:5";
    assert_eq!(rt; text.as_slice(), want.as_slice());
    let greatest = set_of(alloc, &[(0, 9223372036854775806)])?;
    let text = text_of(alloc, &greatest)?;
    let want = b"00000000-0000-4000-8000-000000000100:9223372036854775806";
    assert_eq!(rt; text.as_slice(), want.as_slice());
    Ok(())
}

#[test]
fn prints_positions_as_vitess_does(rt: HostRuntime) -> Result<(), Fail> {
    let alloc = rt.alloc();
    let none = GtidSet::empty(alloc);
    let text = position_of(alloc, &none)?;
    assert_eq!(rt; text.as_slice(), b"MySQL56/".as_slice());
    let diverged = set_of(alloc, &[(0, 1), (1, 1)])?;
    let text = position_of(alloc, &diverged)?;
    let want =
        b"MySQL56/00000000-0000-4000-8000-000000000100:1,00000000-0000-4000-8000-000000000101:1";
    assert_eq!(rt; text.as_slice(), want.as_slice());
    let ahead = set_of(alloc, &[(0, 1), (0, 2)])?;
    let text = position_of(alloc, &ahead)?;
    let want = b"MySQL56/00000000-0000-4000-8000-000000000100:1-2";
    assert_eq!(rt; text.as_slice(), want.as_slice());
    Ok(())
}

#[test]
fn decides_who_is_ahead_and_who_is_errant(rt: HostRuntime) -> Result<(), Fail> {
    let alloc = rt.alloc();
    let primary = set_of(alloc, &[(0, 1), (0, 2)])?;
    let lagging = set_of(alloc, &[(0, 1)])?;
    let errant = set_of(alloc, &[(0, 1), (1, 1)])?;
    assert!(rt; covers(&primary, &lagging));
    assert!(rt; !covers(&lagging, &primary));
    assert!(rt; !covers(&primary, &errant));
    assert!(rt; !covers(&errant, &primary));

    // A greater last number does not make up for a gap.
    let gap = set_of(alloc, &[(0, 1), (0, 3)])?;
    assert!(rt; !covers(&gap, &primary));

    let lacks = minus(alloc, &primary, &lagging)?;
    assert!(rt; equal(&lacks, &set_of(alloc, &[(0, 2)])?));
    let extra = minus(alloc, &errant, &primary)?;
    assert!(rt; equal(&extra, &set_of(alloc, &[(1, 1)])?));
    assert!(rt; !equal(&extra, &lacks));
    assert!(rt; extra == extra.copy()?);
    assert!(rt;
        extra.contains(Gtid {
            server: server(1),
            number: 1
        })
    );
    assert!(rt;
        !extra.contains(Gtid {
            server: server(0),
            number: 1
        })
    );
    Ok(())
}

#[test]
fn joins_what_touches(rt: HostRuntime) -> Result<(), Fail> {
    let alloc = rt.alloc();
    let outer = set_of(alloc, &[(0, 1), (0, 2), (0, 3), (0, 7)])?;
    let inner = set_of(alloc, &[(0, 4), (0, 5), (0, 6)])?;
    let both = union(alloc, &outer, &inner)?;
    let text = text_of(alloc, &both)?;
    assert_eq!(rt;
        text.as_slice(),
        b"00000000-0000-4000-8000-000000000100:1-7".as_slice()
    );
    Ok(())
}

/// All transactions of the first server.
fn all_of(alloc: Global) -> Result<GtidSet, OutOfMemory> {
    GtidSet::of_interval(
        alloc,
        &Interval {
            server: server(0),
            first: 1,
            last: 9223372036854775806,
        },
    )
}

#[test]
fn cuts_one_out_of_all(rt: HostRuntime) -> Result<(), Fail> {
    let alloc = rt.alloc();
    let all = all_of(alloc)?;
    let one = set_of(alloc, &[(0, 2)])?;
    let rest = minus(alloc, &all, &one)?;
    assert_eq!(rt; rest.intervals().len(), 2);
    let text = text_of(alloc, &rest)?;
    let want = b"00000000-0000-4000-8000-000000000100:1:3-9223372036854775806";
    assert_eq!(rt; text.as_slice(), want.as_slice());
    Ok(())
}

#[test]
fn counts_without_a_walk(rt: HostRuntime) -> Result<(), Fail> {
    let alloc = rt.alloc();
    let all = all_of(alloc)?;
    assert_eq!(rt; all.count(), 9223372036854775806);
    Ok(())
}

#[test]
fn joins_both_neighbours(rt: HostRuntime) -> Result<(), Fail> {
    let alloc = rt.alloc();
    let set = set_of(alloc, &[(0, 1), (0, 3), (0, 6), (1, 2), (0, 2)])?;
    assert_eq!(rt; set.intervals().len(), 3);
    let text = text_of(alloc, &set)?;
    let want = b"00000000-0000-4000-8000-000000000100:1-3:6,00000000-0000-4000-8000-000000000101:2";
    assert_eq!(rt; text.as_slice(), want.as_slice());
    Ok(())
}

#[test]
fn prints_thirty_two_servers(rt: HostRuntime) -> Result<(), Fail> {
    let alloc = rt.alloc();
    let digits = b"0123456789abcdef";
    let mut set = GtidSet::empty(alloc);
    let mut want = Vec::new(alloc);
    for (tens, first) in digits[..2].iter().zip([0u8, 16]) {
        for (ones, offset) in digits.iter().zip(0u8..16) {
            if !want.is_empty() {
                want.push(b',')?;
            }
            want.extend_from_slice(b"00000000-0000-4000-8000-0000000001")?;
            want.extend_from_slice(&[*tens, *ones])?;
            want.extend_from_slice(b":1:3-4")?;
            for number in [4, 1, 3] {
                set.add(Gtid {
                    server: server(first | offset),
                    number,
                })?;
            }
        }
    }
    assert_eq!(rt; set.count(), 96);
    let text = text_of(alloc, &set)?;
    assert_eq!(rt; text.as_slice(), want.as_slice());
    Ok(())
}

/// Whether a text is read as the set that is written so.
fn is_read_as(alloc: Global, text: &[u8], want: &[u8]) -> Result<bool, OutOfMemory> {
    match read_set(alloc, text) {
        Ok(set) => {
            let written = text_of(alloc, &set)?;
            Ok(written.as_slice() == want)
        }
        Err(_) => Ok(false),
    }
}

#[test]
fn reads_sets_as_mysql_does(rt: HostRuntime) -> Result<(), Fail> {
    let alloc = rt.alloc();
    let server = b"00000000-0000-4000-8000-000000000100".as_slice();
    let table: [(&[u8], &[u8]); 6] = [
        (b"", b""),
        (b":5-3", b""),
        (b":5-0", b""),
        (b":9223372036854775806", b":9223372036854775806"),
        (
            b":007:1-3 ,\t00000000-0000-4000-8000-000000000100:4-6",
            b":1-7",
        ),
        (b":3:1,\r\n00000000-0000-4000-8000-000000000100:2", b":1-3"),
    ];
    for (items, want) in table {
        let mut text = Vec::new(alloc);
        let mut wanted = Vec::new(alloc);
        if !items.is_empty() {
            text.extend_from_slice(server)?;
            text.extend_from_slice(items)?;
        }
        if !want.is_empty() {
            wanted.extend_from_slice(server)?;
            wanted.extend_from_slice(want)?;
        }
        assert!(rt; is_read_as(alloc, &text, &wanted)?);
    }
    let out_of_order =
        b"00000000-0000-4000-8000-0000000001Aa:1-3:5,\n00000000-0000-4000-8000-000000000100:4-6:5:7";
    let want =
        b"00000000-0000-4000-8000-000000000100:4-7,00000000-0000-4000-8000-0000000001aa:1-3:5";
    assert!(rt; is_read_as(alloc, out_of_order, want)?);
    Ok(())
}

/// Whether a text is refused with this fault.
fn is_refused(alloc: Global, text: &[u8], want: SetFault) -> bool {
    match read_set(alloc, text) {
        Ok(_) => false,
        Err(fault) => fault == ReadFault::Text(want),
    }
}

#[test]
fn refuses_what_is_no_set(rt: HostRuntime) -> Result<(), Fail> {
    let alloc = rt.alloc();
    let server = b"00000000-0000-4000-8000-000000000100".as_slice();
    let table: [(&[u8], SetFault); 11] = [
        (b"", SetFault::BadInterval { at: 36 }),
        (b":", SetFault::BadInterval { at: 37 }),
        (b":tag:1", SetFault::Tagged { at: 37 }),
        (b":0", SetFault::BadInterval { at: 37 }),
        (b":0-3", SetFault::BadInterval { at: 37 }),
        (b":1-2-3", SetFault::BadInterval { at: 37 }),
        (b":1 ", SetFault::BadInterval { at: 37 }),
        (b":9223372036854775807", SetFault::TooLarge { at: 37 }),
        (b":1:5-99999999999999999999", SetFault::TooLarge { at: 39 }),
        (b":1,  ", SetFault::BadUuid { at: 39 }),
        (b":1,  :1", SetFault::BadUuid { at: 39 }),
    ];
    for (items, want) in table {
        let mut text = Vec::new(alloc);
        text.extend_from_slice(server)?;
        text.extend_from_slice(items)?;
        assert!(rt; is_refused(alloc, &text, want));
    }
    assert!(rt; is_refused(alloc, b"xyz", SetFault::BadUuid { at: 0 }));
    assert!(rt; is_refused(alloc, b" ,", SetFault::BadUuid { at: 0 }));
    Ok(())
}

#[test]
fn reads_positions_as_vitess_does(rt: HostRuntime) -> Result<(), Fail> {
    let alloc = rt.alloc();
    let none = read_position(alloc, b"MySQL56/");
    assert!(rt; none.is_ok_and(|set| set == GtidSet::empty(alloc)));
    let other = read_position(alloc, b"MariaDB/0-1-5");
    assert!(rt; other.is_err_and(|fault| fault == ReadFault::Text(SetFault::BadFlavor)));
    let bad = read_position(alloc, b"MySQL56/xyz:1");
    assert!(rt; bad.is_err_and(|fault| fault == ReadFault::Text(SetFault::BadUuid { at: 8 })));
    Ok(())
}
