//! Whether the tablets that an `EmergencyReparentShard` stopped keep every older primary from committing.

ghost use Rattle.std.specs.Prelude.{◌≡◌, ◌++◌, not, find, IfOk, OnOk};
ghost use Rattle.std.specs.List.{flat_map};
ghost use Rattle.std.specs.Option.{option_copied};
ghost use Rattle.shard_names.specs.Tablets.{is_among};
ghost use Rattle.durability.specs.Policies.{rules_of};
ghost use Rattle.durability.specs.Sets.{ackers_in};
ghost use Rattle.durability.specs.Counting.{is_revoked, is_unrevoked};
ghost use Rattle.shard_calls.specs.Choosing.{outcome_of};
ghost use Rattle.shard_calls.specs.Rescuing.{helds, reached_by, unreached_by, unreached_of, not_stopped, unreached, first_unrevoked, refusal_of_unrevoked};
ghost use Rattle.refusals.specs.Entries.{entry_unreached};

use crate::choosing::outcome_of;
use crate::rescuing::is_reached;
use crate::table::is_among;
use durability::{Policy, is_eligible};
use shard_base::{Items, OutOfMemory};
use shard_calls::{Deed, Group, NotStopped, Outcome, Refusal, Unreached, Why};
use shard_names::{Alias, Tablet};
use std::alloc::Global;

fn gave_up(deeds: &[Deed], alias: &Alias) -> Option<Unreached>
    ensures { result ≡ unreached_by (outcome_of deeds.now alias.now) }
{
    match outcome_of(deeds, alias) {
        Some(Outcome::GivenUp { why }) => Some(Unreached::GivenUp(*why)),
        _ => None,
    }
}

/// Why a tablet was not stopped: it was to be left out, or its call was given up.
fn unreached_of(ignored: &[Alias], deeds: &[Deed], alias: &Alias) -> Option<Unreached>
    ensures { result ≡ unreached_of ignored.now deeds.now alias.now }
{
    if is_among(ignored, alias) {
        return Some(Unreached::Ignored);
    }
    gave_up(deeds, alias)
}

fn push_not_stopped(
    into: &mut Items<NotStopped>,
    alias: &Alias,
    unreached: Option<Unreached>,
) -> Result<(), OutOfMemory>
    ensures { OnOk result (into.new ≡ into.old ++ not_stopped alias.now unreached) }
{
    let _why: Option<&Why> = None;
    match unreached {
        Some(unreached) => into.push(NotStopped {
            alias: *alias,
            unreached,
        }),
        None => Ok(()),
    }
}

#[tactic(auto, unfolding(crate::specs::Entries::entry_unreached))]
fn push_unreached(
    into: &mut Items<NotStopped>,
    ignored: &[Alias],
    deeds: &[Deed],
    tablet: &Tablet,
) -> Result<(), OutOfMemory>
    ensures { OnOk result (into.new ≡ into.old ++ entry_unreached ignored.now deeds.now tablet.now) }
{
    let unreached = unreached_of(ignored, deeds, &tablet.alias);
    push_not_stopped(into, &tablet.alias, unreached)
}

fn entries(
    alloc: Global,
    ignored: &[Alias],
    deeds: &[Deed],
    of: &[Tablet],
) -> Result<Items<NotStopped>, OutOfMemory>
    ensures { IfOk result (λ tablets. tablets ≡ flat_map (entry_unreached ignored.now deeds.now) of.now) }
{
    let mut tablets = Items::new(alloc);
    for tablet in of {
        push_unreached(&mut tablets, ignored, deeds, tablet)?;
    }
    Ok(tablets)
}

/// The tablets that were not stopped by these calls, each with why.
#[tactic(auto, unfolding(crate::specs::Entries::entry_unreached))]
pub fn unreached(
    alloc: Global,
    group: &Group,
    ignored: &[Alias],
    deeds: &[Deed],
) -> Result<Items<NotStopped>, OutOfMemory>
    ensures { IfOk result (λ tablets. tablets ≡ unreached group.now ignored.now deeds.now) }
{
    entries(alloc, ignored, deeds, group.tablets.as_slice())
}

fn count_unreached_ackers(group: &Group, deeds: &[Deed], tablet: &Tablet) -> usize
    ensures { result ≡ ackers_in (rules_of group.now.policy) group.now.tablets tablet.now (λ a. not (is_among (reached_by (helds deeds.now)) a)) }
{
    group
        .tablets
        .as_slice()
        .iter()
        .filter(|other| group.policy.is_acker(tablet, other) && !is_reached(deeds, &other.alias))
        .count()
}

/// Whether the tablet stopped, or fewer of its ackers are left than it needs.
fn is_revoked(group: &Group, deeds: &[Deed], tablet: &Tablet) -> bool
    ensures { result ≡ is_revoked (rules_of group.now.policy) group.now.tablets (is_among (reached_by (helds deeds.now))) tablet.now }
{
    is_reached(deeds, &tablet.alias)
        || count_unreached_ackers(group, deeds, tablet) < group.policy.acks(tablet) as usize
}

#[tactic(auto, unfolding(crate::specs::Opened::unrevoked))]
fn is_unrevoked(group: &Group, deeds: &[Deed], tablet: &Tablet) -> bool
    ensures { result ≡ is_unrevoked (rules_of group.now.policy) group.now.tablets (is_among (reached_by (helds deeds.now))) tablet.now }
{
    is_eligible(&group.policy, tablet) && !is_revoked(group, deeds, tablet)
}

fn first_unrevoked<'a>(group: &'a Group, deeds: &[Deed]) -> Option<&'a Tablet>
    ensures { option_copied result ≡ first_unrevoked group.now (reached_by (helds deeds.now)) }
{
    let tablets = group.tablets.as_slice();
    tablets
        .iter()
        .find(|tablet| is_unrevoked(group, deeds, tablet))
}

/// That the first tablet may still commit writes of an older term that may be promoted and is not kept from it by the tablets that stopped by
/// these calls, if there is one.
pub fn refusal_of_unrevoked(
    alloc: Global,
    group: &Group,
    ignored: &[Alias],
    deeds: &[Deed],
) -> Result<Option<Refusal>, OutOfMemory>
    ensures { IfOk result (λ refusal. refusal ≡ refusal_of_unrevoked group.now ignored.now deeds.now) }
{
    let Some(tablet) = first_unrevoked(group, deeds) else {
        return Ok(None);
    };
    let unreached = unreached(alloc, group, ignored, deeds)?;
    Ok(Some(Refusal::NotRevoked {
        alias: tablet.alias,
        unreached,
    }))
}
