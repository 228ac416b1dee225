//! The shard's tablets as they are shown.

ghost use Rattle.std.specs.Prelude.{◌≡◌, map, IfOk};
ghost use Rattle.shard_calls.specs.Causes.{declared_type, is_recorded_as, shown_type, row_of};

use refusals::is_among;
use shard_base::{Items, OutOfMemory};
use shard_calls::{Group, Seen, ShownType, TabletRow};
use shard_names::{Alias, Tablet, TabletType};
use std::alloc::Global;
use topo_lock::Record;

fn declared_type(kind: TabletType) -> ShownType
    ensures { result ≡ declared_type kind }
{
    match kind {
        TabletType::Replica => ShownType::Replica,
        TabletType::Rdonly => ShownType::Rdonly,
        TabletType::Spare => ShownType::Spare,
    }
}

fn is_recorded_as(alias: &Alias, recorded: &Option<Record>) -> bool
    ensures { result ≡ is_recorded_as alias.now recorded.now }
{
    match recorded {
        Some(record) => record.alias == *alias,
        None => false,
    }
}

fn shown_type(seen: &Seen, tablet: &Tablet) -> ShownType
    ensures { result ≡ shown_type seen.now tablet.now }
{
    if is_recorded_as(&tablet.alias, &seen.recorded) {
        return ShownType::Primary;
    }
    if is_among(seen.drained.as_slice(), &tablet.alias) {
        return ShownType::Drained;
    }
    declared_type(tablet.kind)
}

/// A tablet as `GetTablets` shows it where this was read: as the primary by the record, or else as drained by the marks, or else as it is
/// declared.
pub fn row_of(seen: &Seen, tablet: &Tablet) -> TabletRow
    ensures { result ≡ row_of seen.now tablet.now }
{
    TabletRow {
        alias: tablet.alias,
        server: tablet.server,
        kind: shown_type(seen, tablet),
    }
}

/// All tablets as `GetTablets` shows them, in alias order.
pub fn rows_of(alloc: Global, group: &Group, seen: &Seen) -> Result<Items<TabletRow>, OutOfMemory>
    ensures { IfOk result (λ rows. rows ≡ map (row_of seen.now) group.now.tablets) }
{
    let mut rows = Items::new(alloc);
    for tablet in group.tablets.as_slice() {
        rows.push(row_of(seen, tablet))?;
    }
    Ok(rows)
}
