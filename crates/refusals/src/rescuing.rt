//! What an `EmergencyReparentShard` makes of the tablets that it stopped: which they are, which of them is ahead of all, and who takes over.

ghost use Rattle.std.specs.Prelude.{◌≡◌, ◌<◌, ◌≤◌, ◌++◌, None, Some, not, find, IfOk, OnOk};
ghost use Rattle.std.specs.List.{list_any};
ghost use Rattle.std.specs.Option.{option_copied};
ghost use Rattle.gtid_sets.specs.Position.{covers, nothing};
ghost use Rattle.gtid_sets.specs.Winner.{leading, first_apart};
ghost use Rattle.shard_names.specs.Tablets.{is_among, tablet_of};
ghost use Rattle.shard_calls.specs.Choosing.{best_from, is_call_of, rejected};
ghost use Rattle.shard_calls.specs.Refusals.{recorded_alias};
ghost use Rattle.shard_calls.specs.declared.refusal.Refusal.TheVariants as refusals;
ghost use Rattle.shard_calls.specs.Rescuing.{heeded, held_by, held_in, helds, reached_by, stale_in, first_by, ackers_reached, is_short, refusal_of_short, refusal_of_crossing_from, refusal_if, refusal_of_call, refusal_of_given, is_in_other_cell, reason_to_rescue, place_of, worth, position_of, fitness, reasons_to_rescue, number_to_rescue, refusal_of_split, winner_of, rescuer};
ghost use Rattle.refusals.specs.Reached.{reaches, stops, covers_by, covers_found};

use crate::choosing::{better, call_of, push_if, push_rejected, reason_of_tablet};
use crate::table::{
    is_among, is_in_cell_of, recorded_alias, refusal_after, refusal_of_crossing, tablet_of,
};
use durability::Policy;
use errant::{find_winner, first_apart};
use gtid_sets::{GtidSet, Held, covers};
use shard_base::{Items, OutOfMemory};
use shard_calls::{
    Answer, Asked, Deed, EmergencyOptions, Group, Outcome, Reason, Refusal, Rejected, Seen,
};
use shard_names::{Alias, PromotionRule, Tablet};
use std::alloc::Global;

// ---- who stopped

/// The tablets that are to be stopped: all but the ignored ones.
pub fn heeded(alloc: Global, group: &Group, ignored: &[Alias]) -> Result<Items<Alias>, OutOfMemory>
    ensures { IfOk result (λ aliases. aliases ≡ heeded group.now ignored.now) }
{
    let mut aliases = Items::new(alloc);
    for tablet in group.tablets.as_slice() {
        push_if(
            &mut aliases,
            !is_among(ignored, &tablet.alias),
            &tablet.alias,
        )?;
    }
    Ok(aliases)
}

fn push_stopped(into: &mut Items<Held>, alias: &Alias, outcome: &Outcome) -> Result<(), OutOfMemory>
    ensures { OnOk result (into.new ≡ into.old ++ held_by alias.now (Some outcome.now)) }
{
    let Outcome::Answered {
        answer: Answer::Stopped { newest, position },
    } = outcome
    else {
        return Ok(());
    };
    let position = position.copy()?;
    into.push(Held {
        alias: *alias,
        newest: *newest,
        position,
    })
}

fn push_held(into: &mut Items<Held>, deed: &Deed) -> Result<(), OutOfMemory>
    ensures { OnOk result (into.new ≡ into.old ++ held_in deed.now) }
{
    let Deed::Asked { asked } = deed else {
        return Ok(());
    };
    let Some(outcome) = &asked.outcome else {
        return Ok(());
    };
    push_stopped(into, &asked.alias, outcome)
}

/// What the tablets have that stopped, in the order of their calls.
pub fn helds(alloc: Global, deeds: &[Deed]) -> Result<Items<Held>, OutOfMemory>
    ensures { IfOk result (λ held. held ≡ helds deeds.now) }
{
    let mut held = Items::new(alloc);
    for deed in deeds {
        push_held(&mut held, deed)?;
    }
    Ok(held)
}

fn reaches(alias: &Alias, deed: &Deed) -> bool
    ensures { result ≡ reaches alias.now deed.now }
{
    match deed {
        Deed::Asked { asked } => match &asked.outcome {
            Some(
                Outcome::Answered {
                    answer: Answer::Stopped { .. },
                },
            ) => *alias == asked.alias,
            _ => false,
        },
        _ => false,
    }
}

fn reach(deeds: &[Deed], alias: &Alias) -> bool
    ensures { result ≡ list_any (reaches alias.now) deeds.now }
{
    deeds.iter().any(|deed| reaches(alias, deed))
}

/// Whether the tablet stopped. It takes no memory.
pub fn is_reached(deeds: &[Deed], alias: &Alias) -> bool
    ensures { result ≡ is_among (reached_by (helds deeds.now)) alias.now }
{
    reach(deeds, alias)
}

/// That a tablet has seen a later term, if this call was answered so. It takes no memory.
pub fn stale_in(deed: &Deed) -> Option<Refusal>
    ensures { result ≡ stale_in deed.now }
{
    match deed {
        Deed::Asked { asked } => match &asked.outcome {
            Some(
                Outcome::Answered {
                    answer: Answer::StaleTerm { seen },
                },
            ) => Some(Refusal::StaleTerm {
                alias: asked.alias,
                seen: *seen,
            }),
            _ => None,
        },
        _ => None,
    }
}

/// That the first tablet that has seen a later term, by these calls, has. It takes no memory.
pub fn first_stale(deeds: &[Deed]) -> Option<Refusal>
    ensures { result ≡ first_by stale_in deeds.now }
{
    let mut left = deeds;
    while let Some((deed, more)) = left.split_first() {
        if let Some(refusal) = stale_in(deed) {
            return Some(refusal);
        }
        left = more;
    }
    None
}

// ---- who takes over

/// How many ackers of the tablet stopped. It takes no memory.
pub fn ackers_reached(group: &Group, deeds: &[Deed], tablet: &Tablet) -> usize
    ensures { result ≡ ackers_reached group.now (reached_by (helds deeds.now)) tablet.now }
{
    group
        .tablets
        .as_slice()
        .iter()
        .filter(|other| group.policy.is_acker(tablet, other) && is_reached(deeds, &other.alias))
        .count()
}

fn is_short(group: &Group, deeds: &[Deed], tablet: &Tablet) -> bool
    ensures { result ≡ is_short group.now (reached_by (helds deeds.now)) tablet.now }
{
    ackers_reached(group, deeds, tablet) < group.policy.acks(tablet) as usize
}

fn refusal_of_short(group: &Group, deeds: &[Deed], alias: &Alias) -> Option<Refusal>
    ensures { result ≡ refusal_of_short group.now (reached_by (helds deeds.now)) (tablet_of group.now.tablets alias.now) }
{
    let tablet = tablet_of(group.tablets.as_slice(), alias)?;
    let have = ackers_reached(group, deeds, tablet);
    let need = group.policy.acks(tablet);
    if have >= need as usize {
        return None;
    }
    Some(Refusal::CannotEstablish {
        alias: tablet.alias,
        have: have as u32,
        need,
    })
}

fn refusal_of_crossing_from(
    prevented: bool,
    recorded: &Option<Alias>,
    alias: &Alias,
) -> Option<Refusal>
    ensures { result ≡ refusal_of_crossing_from prevented recorded.now alias.now }
{
    match recorded {
        Some(old) => refusal_of_crossing(!prevented, old, alias),
        None => None,
    }
}

fn refusal_if(asked: &Asked) -> Result<Option<Refusal>, OutOfMemory>
    ensures { IfOk result (λ refusal. refusal ≡ refusal_if asked.now asked.now.outcome) }
{
    match &asked.outcome {
        Some(outcome) => refusal_after(asked, outcome),
        None => Ok(None),
    }
}

/// Why the first call of this tablet refuses to promote it.
fn refusal_of_call(deeds: &[Deed], alias: &Alias) -> Result<Option<Refusal>, OutOfMemory>
    ensures { IfOk result (λ refusal. refusal ≡ refusal_of_call (find (is_call_of alias.now) deeds.now)) }
{
    match call_of(deeds, alias) {
        Some(Deed::Asked { asked }) => refusal_if(asked),
        _ => Ok(None),
    }
}

fn refusal_of_given(
    group: &Group,
    options: &EmergencyOptions,
    seen: &Seen,
    deeds: &[Deed],
    alias: &Alias,
) -> Result<Option<Refusal>, OutOfMemory>
    ensures { IfOk result (λ refusal. refusal ≡ refusal_of_given group.now options.now seen.now deeds.now alias.now) }
{
    if let Some(refusal) = refusal_of_call(deeds, alias)? {
        return Ok(Some(refusal));
    }
    let recorded = recorded_alias(&seen.recorded);
    if let Some(refusal) = refusal_of_crossing_from(options.prevent_cross_cell, &recorded, alias) {
        return Ok(Some(refusal));
    }
    Ok(refusal_of_short(group, deeds, alias))
}

fn is_in_other_cell(recorded: &Option<Alias>, alias: &Alias) -> bool
    ensures { result ≡ is_in_other_cell recorded.now alias.now }
{
    match recorded {
        Some(old) => !is_in_cell_of(old, alias),
        None => false,
    }
}

fn is_far(seen: &Seen, alias: &Alias) -> bool
    ensures { result ≡ is_in_other_cell (recorded_alias seen.now.recorded) alias.now }
{
    is_in_other_cell(&recorded_alias(&seen.recorded), alias)
}

/// Why a tablet is no candidate.
#[tactic(auto, unfolding(crate::specs::Opened::rescues))]
fn reason_to_rescue(
    group: &Group,
    options: &EmergencyOptions,
    seen: &Seen,
    deeds: &[Deed],
    tablet: &Tablet,
) -> Option<Reason>
    ensures { result ≡ reason_to_rescue group.now options.now seen.now deeds.now tablet.now }
{
    if let Some(reason) = reason_of_tablet(group, seen, &None, tablet) {
        return Some(reason);
    }
    if is_among(options.ignored.as_slice(), &tablet.alias) {
        return Some(Reason::Ignored);
    }
    if !is_reached(deeds, &tablet.alias) {
        return Some(Reason::Unreached);
    }
    if options.prevent_cross_cell && is_far(seen, &tablet.alias) {
        return Some(Reason::OtherCell);
    }
    if is_short(group, deeds, tablet) {
        return Some(Reason::ShortOfAckers);
    }
    None
}

fn place_of(rule: PromotionRule) -> u128
    ensures value { result ≡ place_of rule }
    ensures within { result ≤ 4 }
{
    match rule {
        PromotionRule::Must => 4,
        PromotionRule::Prefer => 3,
        PromotionRule::Neutral => 2,
        PromotionRule::PreferNot => 1,
        PromotionRule::MustNot => 0,
    }
}

fn worth(test: bool, number: u128) -> u128
    ensures value { result ≡ worth test number }
    ensures within { result ≤ number }
{
    if test { number } else { 0 }
}

/// Whether the deed stopped a tablet of this alias.
fn stops(alias: &Alias, deed: &Deed) -> bool
    ensures { result ≡ stops alias.now deed.now }
{
    match deed {
        Deed::Asked { asked } => match &asked.outcome {
            Some(
                Outcome::Answered {
                    answer: Answer::Stopped { .. },
                },
            ) => asked.alias == *alias,
            _ => false,
        },
        _ => false,
    }
}

fn is_nothing(alloc: Global, position: &GtidSet) -> bool
    ensures { result ≡ covers nothing position.now }
{
    covers(&GtidSet::empty(alloc), position)
}

fn covers_by(alloc: Global, alias: &Alias, deed: &Deed, position: &GtidSet) -> bool
    ensures { result ≡ covers_by alias.now position.now deed.now }
{
    match deed {
        Deed::Asked { asked } if asked.alias == *alias => match &asked.outcome {
            Some(
                Outcome::Answered {
                    answer: Answer::Stopped { position: held, .. },
                },
            ) => covers(held, position),
            _ => is_nothing(alloc, position),
        },
        _ => is_nothing(alloc, position),
    }
}

fn stop_of<'a>(deeds: &'a [Deed], alias: &Alias) -> Option<&'a Deed>
    ensures { option_copied result ≡ find (stops alias.now) deeds.now }
{
    deeds.iter().find(|deed| stops(alias, deed))
}

/// Whether what the tablet has, if it stopped, is all of the position.
fn covers_winner(alloc: Global, deeds: &[Deed], alias: &Alias, position: &GtidSet) -> bool
    ensures { result ≡ covers (position_of (helds deeds.now) alias.now) position.now }
{
    match stop_of(deeds, alias) {
        Some(deed) => covers_by(alloc, alias, deed, position),
        None => is_nothing(alloc, position),
    }
}

/// The better rule counts most, then all that the winner has, then the cell of the recorded primary.
#[tactic(auto, unfolding(crate::specs::Opened::fit))]
fn fitness(
    alloc: Global,
    group: &Group,
    seen: &Seen,
    deeds: &[Deed],
    winner: &Held,
    tablet: &Tablet,
) -> u128
    ensures { result ≡ fitness group.now seen.now (helds deeds.now) winner.now tablet.now }
{
    let rule = place_of(group.policy.rule(tablet));
    let whole = covers_winner(alloc, deeds, &tablet.alias, &winner.position);
    let near = !is_far(seen, &tablet.alias);
    rule * 4 + worth(whole, 2) + worth(near, 1)
}

fn number_to_rescue(
    alloc: Global,
    group: &Group,
    options: &EmergencyOptions,
    seen: &Seen,
    deeds: &[Deed],
    winner: &Held,
    tablet: &Tablet,
) -> Option<u128>
    ensures { result ≡ number_to_rescue group.now options.now seen.now deeds.now winner.now tablet.now }
{
    match reason_to_rescue(group, options, seen, deeds, tablet) {
        Some(_) => None,
        None => Some(fitness(alloc, group, seen, deeds, winner, tablet)),
    }
}

fn fittest(
    alloc: Global,
    group: &Group,
    options: &EmergencyOptions,
    seen: &Seen,
    deeds: &[Deed],
    winner: &Held,
) -> Option<(Alias, u128)>
    ensures { result ≡ best_from (number_to_rescue group.now options.now seen.now deeds.now winner.now) None group.now.tablets }
{
    let mut best = None;
    let mut left = group.tablets.as_slice();
    while let Some((tablet, more)) = left.split_first() {
        let number = number_to_rescue(alloc, group, options, seen, deeds, winner, tablet);
        best = better(best, &tablet.alias, number);
        left = more;
    }
    best
}

fn push_reason(
    into: &mut Items<Rejected>,
    group: &Group,
    options: &EmergencyOptions,
    seen: &Seen,
    deeds: &[Deed],
    tablet: &Tablet,
) -> Result<(), OutOfMemory>
    ensures { OnOk result (into.new ≡ into.old ++ rejected tablet.now.alias (reason_to_rescue group.now options.now seen.now deeds.now tablet.now)) }
{
    let reason = reason_to_rescue(group, options, seen, deeds, tablet);
    push_rejected(into, &tablet.alias, reason)
}

fn reasons_to_rescue(
    alloc: Global,
    group: &Group,
    options: &EmergencyOptions,
    seen: &Seen,
    deeds: &[Deed],
) -> Result<Items<Rejected>, OutOfMemory>
    ensures { IfOk result (λ reasons. reasons ≡ reasons_to_rescue group.now options.now seen.now deeds.now) }
{
    let mut reasons = Items::new(alloc);
    for tablet in group.tablets.as_slice() {
        push_reason(&mut reasons, group, options, seen, deeds, tablet)?;
    }
    Ok(reasons)
}

/// Why those two tablets are a split, with what they have.
fn split(a: &Held, b: &Held) -> Result<Refusal, OutOfMemory>
    ensures { IfOk result (λ refusal. refusal ≡ refusals.SplitBrain a.now.alias a.now.position b.now.alias b.now.position) }
{
    let has_a = a.position.copy()?;
    let has_b = b.position.copy()?;
    Ok(Refusal::SplitBrain {
        a: a.alias,
        has_a,
        b: b.alias,
        has_b,
    })
}

fn refusal_of_split(helds: &[Held]) -> Result<Option<Refusal>, OutOfMemory>
    ensures { IfOk result (λ refusal. refusal ≡ refusal_of_split (first_apart (leading helds.now))) }
{
    match first_apart(helds) {
        Some((a, b)) => {
            let refusal = split(a, b)?;
            Ok(Some(refusal))
        }
        None => Ok(None),
    }
}

fn copied(held: &Held) -> Result<Held, OutOfMemory>
    ensures { IfOk result (λ copy. copy ≡ held.now) }
{
    let position = held.position.copy()?;
    Ok(Held {
        alias: held.alias,
        newest: held.newest,
        position,
    })
}

/// Of the tablets that stopped the one that is ahead of all, or the refusal: two that are apart, or, where none stopped, why no tablet can
/// be the primary.
pub fn winner_of(
    alloc: Global,
    group: &Group,
    options: &EmergencyOptions,
    seen: &Seen,
    deeds: &[Deed],
) -> Result<Result<Held, Refusal>, OutOfMemory>
    ensures { IfOk result (λ winner. winner ≡ winner_of group.now options.now seen.now deeds.now) }
{
    let stopped = helds(alloc, deeds)?;
    if let Some(winner) = find_winner(stopped.as_slice()) {
        let winner = copied(winner)?;
        return Ok(Ok(winner));
    }
    if let Some(refusal) = refusal_of_split(stopped.as_slice())? {
        return Ok(Err(refusal));
    }
    let reasons = reasons_to_rescue(alloc, group, options, seen, deeds)?;
    Ok(Err(Refusal::NoCandidate { reasons }))
}

/// Who takes over, of the tablets that stopped: the given one, or the fittest, and of equals the first, or the refusal.
pub fn rescuer(
    alloc: Global,
    group: &Group,
    options: &EmergencyOptions,
    seen: &Seen,
    deeds: &[Deed],
    winner: &Held,
    new_primary: &Option<Alias>,
) -> Result<Result<Alias, Refusal>, OutOfMemory>
    ensures { IfOk result (λ alias. alias ≡ rescuer group.now options.now seen.now deeds.now winner.now new_primary.now) }
{
    if let Some(given) = new_primary {
        return match refusal_of_given(group, options, seen, deeds, given)? {
            Some(refusal) => Ok(Err(refusal)),
            None => Ok(Ok(*given)),
        };
    }
    if let Some(best) = fittest(alloc, group, options, seen, deeds, winner) {
        return Ok(Ok(best.0));
    }
    let reasons = reasons_to_rescue(alloc, group, options, seen, deeds)?;
    Ok(Err(Refusal::NoCandidate { reasons }))
}
