//! What tablets have beyond their new primary.

ghost use Rattle.std.specs.Prelude.{◌≡◌, ◌++◌, IfOk, OnOk};
ghost use Rattle.errant.specs.Errant.{excess_of, errant_of};

use gtid_sets::{GtidSet, Held, covers, minus};
use shard_base::{Items, OutOfMemory};
use shard_names::Alias;
use std::alloc::Global;

/// A tablet, and the transactions that its log has and its new primary's log has not.
#[derive(Drop)]
pub struct Excess {
    pub alias: Alias,
    pub extra: GtidSet,
}

fn push_excess(
    alloc: Global,
    into: &mut Items<Excess>,
    primary: &GtidSet,
    held: &Held,
) -> Result<(), OutOfMemory>
    ensures { OnOk result (into.new ≡ into.old ++ excess_of primary.now held.now) }
{
    if covers(primary, &held.position) {
        return Ok(());
    }
    let extra = minus(alloc, &held.position, primary)?;
    into.push(Excess {
        alias: held.alias,
        extra,
    })
}

/// The tablets that have transactions which a primary with this position has not, each with these, in the order given.
pub fn errant_of(
    alloc: Global,
    primary: &GtidSet,
    helds: &[Held],
) -> Result<Items<Excess>, OutOfMemory>
    ensures { IfOk result (λ errant. errant ≡ errant_of primary.now helds.now) }
{
    let mut errant = Items::new(alloc);
    for held in helds {
        push_excess(alloc, &mut errant, primary, held)?;
    }
    Ok(errant)
}
