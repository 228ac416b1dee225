//! What each tablet said of itself, by what it was asked.

ghost use Rattle.std.specs.Prelude.{◌≡◌, ◌++◌, find, IfOk, OnOk};
ghost use Rattle.std.specs.Option.{option_copied};
ghost use Rattle.shard_names.specs.Tablets.{alias_eq};
ghost use Rattle.shard_calls.specs.Analysis.{said_in};
ghost use Rattle.shard_calls.specs.Causes.{status_in, statuses};
ghost use Rattle.analysis.specs.Said.{said_by_call, said_by};

use shard_base::{Items, OutOfMemory};
use shard_calls::{Answer, Deed, Outcome, Stand, Status, TabletStatus};
use shard_names::Alias;
use std::alloc::Global;

/// The first entry of the tablet.
fn entry_of<'a>(statuses: &'a [TabletStatus], alias: &Alias) -> Option<&'a TabletStatus>
    ensures { option_copied result ≡ find (λ s. alias_eq s.alias alias.now) statuses.now }
{
    statuses.iter().find(|status| status.alias == *alias)
}

/// What the tablet said, if it was reached: by the first entry of it. It takes no memory.
pub fn status_of<'a>(statuses: &'a [TabletStatus], alias: &Alias) -> Option<&'a Status>
    ensures { option_copied result ≡ said_in statuses.now alias.now }
{
    match entry_of(statuses, alias) {
        Some(entry) => entry.status.as_ref(),
        None => None,
    }
}

/// How a tablet stands that answered its Status.
fn status_in(outcome: &Option<Outcome>) -> Result<Option<Status>, OutOfMemory>
    ensures { IfOk result (λ status. status ≡ status_in outcome.now) }
{
    let Some(
        Outcome::Answered {
            answer: Answer::Status {
                stand,
                position,
                ..
            },
        },
    ) = outcome
    else {
        return Ok(None);
    };
    let position = position.copy()?;
    Ok(Some(Status {
        stand: *stand,
        position,
    }))
}

fn push_status(into: &mut Items<TabletStatus>, deed: &Deed) -> Result<(), OutOfMemory>
    ensures { OnOk result (into.new ≡ into.old ++ said_by_call deed.now) }
{
    let _stand: Option<&Stand> = None;
    let Deed::Asked { asked } = deed else {
        return Ok(());
    };
    let status = status_in(&asked.outcome)?;
    into.push(TabletStatus {
        alias: asked.alias,
        status,
    })
}

/// Puts at the end what came of each of these calls.
pub fn push_statuses(into: &mut Items<TabletStatus>, deeds: &[Deed]) -> Result<(), OutOfMemory>
    ensures { OnOk result (into.new ≡ into.old ++ said_by deeds.now) }
{
    for deed in deeds {
        push_status(into, deed)?;
    }
    Ok(())
}

fn said_by(alloc: Global, deeds: &[Deed]) -> Result<Items<TabletStatus>, OutOfMemory>
    ensures { IfOk result (λ list. list ≡ said_by deeds.now) }
{
    let mut list = Items::new(alloc);
    push_statuses(&mut list, deeds)?;
    Ok(list)
}

/// What each tablet answered to the first of these calls of it.
pub fn statuses_of(alloc: Global, deeds: &[Deed]) -> Result<Items<TabletStatus>, OutOfMemory>
    ensures { IfOk result (λ list. said_in list ≡ statuses deeds.now) }
{
    said_by(alloc, deeds)
}

fn said_by_both(
    alloc: Global,
    deeds: &[Deed],
    later: &[Deed],
) -> Result<Items<TabletStatus>, OutOfMemory>
    ensures { IfOk result (λ list. list ≡ said_by deeds.now ++ said_by later.now) }
{
    let mut list = said_by(alloc, deeds)?;
    push_statuses(&mut list, later)?;
    Ok(list)
}

/// What each tablet answered to the first call of it, among those and then among these.
pub fn statuses_of_both(
    alloc: Global,
    deeds: &[Deed],
    later: &[Deed],
) -> Result<Items<TabletStatus>, OutOfMemory>
    ensures { IfOk result (λ list. said_in list ≡ statuses (deeds.now ++ later.now)) }
{
    said_by_both(alloc, deeds, later)
}
