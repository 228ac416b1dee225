//! Who is to be the primary where none is given: at first, and where one is to be followed.

ghost use Rattle.std.specs.Prelude.{◌≡◌, ◌++◌, None, is_none, is_some, IfOk, OnOk, find};
ghost use Rattle.std.specs.List.{flat_map};
ghost use Rattle.std.specs.Option.{option_copied};
ghost use Rattle.shard_calls.specs.Choosing.{better, best_from, chosen, rejected, reason_of_avoided, reason_of_tablet, is_free, first_of, is_call_of, outcome_of, are_settled, reason_to_follow, alias_if, candidates, is_replica_of, reason_by, size_by, reason_among, number_among, follower};

use crate::table::{is_among, is_in_cell_of};
use durability::is_eligible;
use shard_base::{Items, OutOfMemory};
use shard_calls::{Answer, Deed, Group, Outcome, Reason, Refusal, Rejected, Seen, Stand};
use shard_names::{Alias, Tablet};
use std::alloc::Global;

/// The better of the two with the numbers by which they are compared, and of equals the first.
pub(crate) fn better(
    so_far: Option<(Alias, u128)>,
    alias: &Alias,
    number: Option<u128>,
) -> Option<(Alias, u128)>
    ensures { result ≡ better so_far alias.now number }
{
    let Some(number) = number else {
        return so_far;
    };
    match so_far {
        Some(best) if best.1 >= number => Some(best),
        _ => Some((*alias, number)),
    }
}

fn reason_of_avoided(avoided: &Option<Alias>, alias: &Alias) -> Option<Reason>
    ensures { result ≡ reason_of_avoided avoided.now alias.now }
{
    match avoided {
        Some(avoided) if *avoided == *alias => Some(Reason::Avoided),
        _ => None,
    }
}

/// Why a tablet is no candidate, whatever it says.
pub(crate) fn reason_of_tablet(
    group: &Group,
    seen: &Seen,
    avoided: &Option<Alias>,
    tablet: &Tablet,
) -> Option<Reason>
    ensures { result ≡ reason_of_tablet group.now seen.now avoided.now tablet.now }
{
    if !is_eligible(&group.policy, tablet) {
        return Some(Reason::MustNot);
    }
    if is_among(seen.drained.as_slice(), &tablet.alias) {
        return Some(Reason::Drained);
    }
    reason_of_avoided(avoided, &tablet.alias)
}

/// And where a primary is to be followed.
#[tactic(auto, unfolding(crate::specs::Opened::follows))]
fn reason_to_follow(
    group: &Group,
    allowed: bool,
    seen: &Seen,
    old: &Alias,
    tablet: &Tablet,
) -> Option<Reason>
    ensures { result ≡ reason_to_follow group.now allowed seen.now old.now tablet.now }
{
    if let Some(reason) = reason_of_tablet(group, seen, &Some(*old), tablet) {
        return Some(reason);
    }
    if allowed || is_in_cell_of(old, &tablet.alias) {
        return None;
    }
    Some(Reason::OtherCell)
}

fn is_call_of(alias: &Alias, deed: &Deed) -> bool
    ensures { result ≡ is_call_of alias.now deed.now }
{
    match deed {
        Deed::Asked { asked } => asked.alias == *alias,
        _ => false,
    }
}

/// The first call of this tablet.
pub(crate) fn call_of<'a>(deeds: &'a [Deed], alias: &Alias) -> Option<&'a Deed>
    ensures { option_copied result ≡ find (is_call_of alias.now) deeds.now }
{
    deeds.iter().find(|deed| is_call_of(alias, deed))
}

/// What the first call of this tablet came to, if it is settled. It takes no memory.
pub fn outcome_of<'a>(deeds: &'a [Deed], alias: &Alias) -> Option<&'a Outcome>
    ensures { option_copied result ≡ outcome_of deeds.now alias.now }
{
    match call_of(deeds, alias) {
        Some(Deed::Asked { asked }) => asked.outcome.as_ref(),
        _ => None,
    }
}

fn is_settled(deeds: &[Deed], alias: &Alias) -> bool
    ensures { result ≡ is_some (outcome_of deeds.now alias.now) }
{
    outcome_of(deeds, alias).is_some()
}

/// Whether each of these tablets was called, and its first call is settled. It takes no memory.
pub fn are_settled(aliases: &[Alias], deeds: &[Deed]) -> bool
    ensures { result ≡ are_settled aliases.now deeds.now }
{
    aliases.iter().all(|alias| is_settled(deeds, alias))
}

fn is_replica_of(alias: &Alias, stand: &Stand) -> bool
    ensures { result ≡ is_replica_of alias.now stand.now }
{
    match stand {
        Stand::Replica { source, .. } => *source == *alias,
        _ => false,
    }
}

/// By what it said of itself.
fn reason_by(old: &Alias, outcome: &Outcome) -> Option<Reason>
    ensures { result ≡ reason_by old.now (Some outcome.now) }
{
    match outcome {
        Outcome::Answered {
            answer: Answer::Status { stand, .. },
        } => {
            if is_replica_of(old, stand) {
                return None;
            }
            Some(Reason::NotReplica)
        }
        _ => Some(Reason::Unreached),
    }
}

/// By what came of the call of a tablet, why it is no candidate.
fn reason_said(old: &Alias, deeds: &[Deed], alias: &Alias) -> Option<Reason>
    ensures { result ≡ reason_by old.now (outcome_of deeds.now alias.now) }
{
    match outcome_of(deeds, alias) {
        Some(outcome) => reason_by(old, outcome),
        None => Some(Reason::Unreached),
    }
}

#[tactic(auto, unfolding(crate::specs::Opened::among))]
fn reason_among(
    group: &Group,
    allowed: bool,
    seen: &Seen,
    old: &Alias,
    deeds: &[Deed],
    tablet: &Tablet,
) -> Option<Reason>
    ensures { result ≡ reason_among group.now allowed seen.now old.now deeds.now tablet.now }
{
    if let Some(reason) = reason_to_follow(group, allowed, seen, old, tablet) {
        return Some(reason);
    }
    reason_said(old, deeds, &tablet.alias)
}

fn size_said(deeds: &[Deed], alias: &Alias) -> u128
    ensures { result ≡ size_by (outcome_of deeds.now alias.now) }
{
    match outcome_of(deeds, alias) {
        Some(
            Outcome::Answered {
                answer: Answer::Status { position, .. },
            },
        ) => position.count(),
        _ => 0,
    }
}

fn number_among(
    group: &Group,
    allowed: bool,
    seen: &Seen,
    old: &Alias,
    deeds: &[Deed],
    tablet: &Tablet,
) -> Option<u128>
    ensures { result ≡ number_among group.now allowed seen.now old.now deeds.now tablet.now }
{
    match reason_among(group, allowed, seen, old, deeds, tablet) {
        Some(_) => None,
        None => Some(size_said(deeds, &tablet.alias)),
    }
}

/// Whether the tablet may be the first primary.
fn is_free(group: &Group, seen: &Seen, avoided: &Option<Alias>, tablet: &Tablet) -> bool
    ensures { result ≡ is_free group.now seen.now avoided.now tablet.now }
{
    reason_of_tablet(group, seen, avoided, tablet).is_none()
}

/// The first tablet that may be the first primary.
fn first_free<'a>(group: &'a Group, seen: &Seen, avoided: &Option<Alias>) -> Option<&'a Tablet>
    ensures { option_copied result ≡ find (is_free group.now seen.now avoided.now) group.now.tablets }
{
    let tablets = group.tablets.as_slice();
    tablets
        .iter()
        .find(|tablet| is_free(group, seen, avoided, tablet))
}

fn best_among(
    group: &Group,
    allowed: bool,
    seen: &Seen,
    old: &Alias,
    deeds: &[Deed],
) -> Option<(Alias, u128)>
    ensures { result ≡ best_from (number_among group.now allowed seen.now old.now deeds.now) None group.now.tablets }
{
    let mut best = None;
    let mut left = group.tablets.as_slice();
    while let Some((tablet, more)) = left.split_first() {
        let number = number_among(group, allowed, seen, old, deeds, tablet);
        best = better(best, &tablet.alias, number);
        left = more;
    }
    best
}

pub(crate) fn push_rejected(
    into: &mut Items<Rejected>,
    alias: &Alias,
    reason: Option<Reason>,
) -> Result<(), OutOfMemory>
    ensures { OnOk result (into.new ≡ into.old ++ rejected alias.now reason) }
{
    match reason {
        Some(reason) => into.push(Rejected {
            alias: *alias,
            reason,
        }),
        None => Ok(()),
    }
}

fn push_first(
    into: &mut Items<Rejected>,
    group: &Group,
    seen: &Seen,
    avoided: &Option<Alias>,
    tablet: &Tablet,
) -> Result<(), OutOfMemory>
    ensures { OnOk result (into.new ≡ into.old ++ rejected tablet.now.alias (reason_of_tablet group.now seen.now avoided.now tablet.now)) }
{
    let reason = reason_of_tablet(group, seen, avoided, tablet);
    push_rejected(into, &tablet.alias, reason)
}

fn rejected_first(
    alloc: Global,
    group: &Group,
    seen: &Seen,
    avoided: &Option<Alias>,
) -> Result<Items<Rejected>, OutOfMemory>
    ensures { IfOk result (λ reasons. reasons ≡ flat_map (λ t. rejected t.alias
        (reason_of_tablet group.now seen.now avoided.now t)) group.now.tablets) }
{
    let mut reasons = Items::new(alloc);
    for tablet in group.tablets.as_slice() {
        push_first(&mut reasons, group, seen, avoided, tablet)?;
    }
    Ok(reasons)
}

fn push_among(
    into: &mut Items<Rejected>,
    group: &Group,
    allowed: bool,
    seen: &Seen,
    old: &Alias,
    deeds: &[Deed],
    tablet: &Tablet,
) -> Result<(), OutOfMemory>
    ensures { OnOk result (into.new ≡ into.old ++ rejected tablet.now.alias (reason_among group.now allowed seen.now old.now deeds.now tablet.now)) }
{
    let reason = reason_among(group, allowed, seen, old, deeds, tablet);
    push_rejected(into, &tablet.alias, reason)
}

fn rejected_among(
    alloc: Global,
    group: &Group,
    allowed: bool,
    seen: &Seen,
    old: &Alias,
    deeds: &[Deed],
) -> Result<Items<Rejected>, OutOfMemory>
    ensures { IfOk result (λ reasons. reasons ≡ flat_map (λ t. rejected t.alias
        (reason_among group.now allowed seen.now old.now deeds.now t)) group.now.tablets) }
{
    let mut reasons = Items::new(alloc);
    for tablet in group.tablets.as_slice() {
        push_among(&mut reasons, group, allowed, seen, old, deeds, tablet)?;
    }
    Ok(reasons)
}

/// The first primary of the shard, where none is given and this tablet is to be avoided: the first tablet that may be it, or the refusal that
/// names each one's reason.
pub fn first_of(
    alloc: Global,
    group: &Group,
    seen: &Seen,
    avoided: &Option<Alias>,
) -> Result<Result<Alias, Refusal>, OutOfMemory>
    ensures { IfOk result (λ chosen. chosen ≡ first_of group.now seen.now avoided.now) }
{
    if let Some(tablet) = first_free(group, seen, avoided) {
        return Ok(Ok(tablet.alias));
    }
    let reasons = rejected_first(alloc, group, seen, avoided)?;
    Ok(Err(Refusal::NoCandidate { reasons }))
}

/// Who follows the old primary: by what those said that were asked for their status, of its replicas the one that has most, and of equals
/// the first, or the refusal that names each tablet's reason. `allowed` says whether it may be in another cell.
pub fn follower(
    alloc: Global,
    group: &Group,
    allowed: bool,
    seen: &Seen,
    old: &Alias,
    deeds: &[Deed],
) -> Result<Result<Alias, Refusal>, OutOfMemory>
    ensures { IfOk result (λ chosen. chosen ≡ follower group.now allowed seen.now old.now deeds.now) }
{
    if let Some(best) = best_among(group, allowed, seen, old, deeds) {
        return Ok(Ok(best.0));
    }
    let reasons = rejected_among(alloc, group, allowed, seen, old, deeds)?;
    Ok(Err(Refusal::NoCandidate { reasons }))
}

/// Puts the alias at the end if the test holds.
pub fn push_if(into: &mut Items<Alias>, test: bool, alias: &Alias) -> Result<(), OutOfMemory>
    ensures { OnOk result (into.new ≡ into.old ++ alias_if test alias.now) }
{
    if test {
        return into.push(*alias);
    }
    Ok(())
}

fn push_candidate(
    into: &mut Items<Alias>,
    group: &Group,
    allowed: bool,
    seen: &Seen,
    old: &Alias,
    tablet: &Tablet,
) -> Result<(), OutOfMemory>
    ensures { OnOk result (into.new ≡ into.old ++ alias_if
        (is_none (reason_to_follow group.now allowed seen.now old.now tablet.now)) tablet.now.alias) }
{
    let reason = reason_to_follow(group, allowed, seen, old, tablet);
    push_if(into, reason.is_none(), &tablet.alias)
}

/// The tablets that may follow the old primary, whatever they say. `allowed` says whether they may be in another cell.
pub fn candidates(
    alloc: Global,
    group: &Group,
    allowed: bool,
    seen: &Seen,
    old: &Alias,
) -> Result<Items<Alias>, OutOfMemory>
    ensures { IfOk result (λ aliases. aliases ≡ candidates group.now allowed seen.now old.now) }
{
    let mut aliases = Items::new(alloc);
    for tablet in group.tablets.as_slice() {
        push_candidate(&mut aliases, group, allowed, seen, old, tablet)?;
    }
    Ok(aliases)
}
