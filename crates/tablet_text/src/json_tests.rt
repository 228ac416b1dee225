//! The JSON of a shard and of its tablets.

use crate::json::{write_shard, write_tablets};
use crate::tests::{alias, gtid};
use shard_base::OutOfMemory;
use shard_calls::{ShownType, TabletRow};
use shard_names::ShardName;
use std::alloc::Global;
use std::process::Abort;
use std::test::Fail;
use topo_lock::Record;

fn shard_text(
    rt: &impl Abort,
    alloc: Global,
    recorded: Option<Record>,
) -> Result<Vec<u8>, OutOfMemory> {
    let shard = ShardName::read(b"commerce/-80").expect(rt, "a shard's name");
    let mut text = Vec::new(alloc);
    write_shard(&shard, &recorded, &mut text)?;
    Ok(text)
}

#[test]
fn of_a_shard(rt: HostRuntime) -> Result<(), Fail> {
    let text = shard_text(&rt, rt.alloc(), None)?;
    let want =
        b"{\"keyspace\":\"commerce\",\"primary_alias\":null,\"primary_term_start_time\":null,\"shard\":\"-80\",\"term\":0}";
    assert_eq!(rt; text.as_slice(), want.as_slice());
    let recorded = Record {
        alias: alias(&rt, b"zone1-100"),
        term: 3,
        moment: 1704067200000,
    };
    let text = shard_text(&rt, rt.alloc(), Some(recorded))?;
    let want =
        b"{\"keyspace\":\"commerce\",\"primary_alias\":\"zone1-0000000100\",\"primary_term_start_time\":\"2024-01-01T00:00:00.000Z\",\"shard\":\"-80\",\"term\":3}";
    assert_eq!(rt; text.as_slice(), want.as_slice());
    Ok(())
}

fn row(rt: &impl Abort, name: &[u8], last: u8, kind: ShownType) -> TabletRow {
    TabletRow {
        alias: alias(rt, name),
        server: gtid(last, 1).server,
        kind,
    }
}

#[test]
fn of_tablets(rt: HostRuntime) -> Result<(), Fail> {
    let mut text = Vec::new(rt.alloc());
    write_tablets(&[], &mut text)?;
    assert_eq!(rt; text.as_slice(), b"[]".as_slice());
    let rows = [
        row(&rt, b"zone1-100", 0, ShownType::Primary),
        row(&rt, b"zone2-7", 1, ShownType::Drained),
    ];
    let mut text = Vec::new(rt.alloc());
    write_tablets(&rows, &mut text)?;
    let want =
        b"[{\"alias\":\"zone1-0000000100\",\"cell\":\"zone1\",\"server\":\"00000000-0000-4000-8000-000000000100\",\"type\":\"PRIMARY\"},{\"alias\":\"zone2-0000000007\",\"cell\":\"zone2\",\"server\":\"00000000-0000-4000-8000-000000000101\",\"type\":\"DRAINED\"}]";
    assert_eq!(rt; text.as_slice(), want.as_slice());
    let kinds = [
        row(&rt, b"a-1", 0, ShownType::Replica),
        row(&rt, b"a-2", 1, ShownType::Rdonly),
        row(&rt, b"a-3", 2, ShownType::Spare),
    ];
    let mut text = Vec::new(rt.alloc());
    write_tablets(&kinds, &mut text)?;
    assert!(rt; text.as_slice().ends_with(b"\"type\":\"SPARE\"}]"));
    Ok(())
}
