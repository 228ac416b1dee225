//! The causes of the answers of an `EmergencyReparentShard`.

ghost use Rattle.std.specs.Prelude.{◌≡◌, ◌&&◌, ◌||◌, None, Some, is_none, IfOk};
ghost use Rattle.std.specs.List.{list_any};
ghost use Rattle.shard_calls.specs.Refusals.{refusal_by_seen, refusal_of_emergency};
ghost use Rattle.shard_calls.specs.Rescuing.{stale_in, refusal_of_unrevoked, rescuer};
ghost use Rattle.shard_calls.specs.declared.span.Kind.TheVariants as kinds;
ghost use Rattle.shard_calls.specs.Causes.{is_this, is_err_of, read_passes, any_read, calls_of, call_refuses, topology_refuses, before_first, is_intended, is_set_source_kind, is_needed_by_emergency, is_want_of_memory, stale_refuses, rescue_refuses, stops_refuse, emergency_is_refused, has_emergency_cause};
ghost use Rattle.causes.specs.Emergency.{refuses_early, refuses_by_stale, refuses_by_stopped, refuses_by_stops, refuses_late};

use crate::planned::{is_err_of, is_want_of_memory};
use gtid_sets::Held;
use refusals::{
    are_settled, heeded, refusal_by_seen, refusal_of_emergency, refusal_of_unrevoked, rescuer,
    stale_in, winner_of,
};
use shard_base::OutOfMemory;
use shard_calls::{
    CommandAnswer, CommandState, Deed, EmergencyOptions, Group, Kind, Refusal, Seen,
};
use spans::{
    Needed, before_intent, call_refuses, calls_of, is_promoted, is_this, refusal_eq,
    topology_refuses,
};
use std::alloc::Global;

fn read_refuses(options: &EmergencyOptions, refusal: &Refusal, deed: &Deed) -> bool
    ensures { result ≡ read_passes (λ seen. is_this refusal.now (refusal_by_seen options.now.expected options.now.new_primary seen)) deed.now }
{
    match deed {
        Deed::Read { reply: Ok(seen) } => {
            let found = refusal_by_seen(&options.expected, &options.new_primary, seen);
            is_this(refusal, &found)
        }
        _ => false,
    }
}

fn any_read_refuses(options: &EmergencyOptions, refusal: &Refusal, span: &[Deed]) -> bool
    ensures { result ≡ any_read (λ seen. is_this refusal.now (refusal_by_seen options.now.expected options.now.new_primary seen)) span.now }
{
    span.iter().any(|deed| read_refuses(options, refusal, deed))
}

fn is_stale_stop(refusal: &Refusal, deed: &Deed) -> bool
    ensures { result ≡ is_this refusal.now (stale_in deed.now) }
{
    is_this(refusal, &stale_in(deed))
}

fn stale_refuses(refusal: &Refusal, stops: &[Deed]) -> bool
    ensures { result ≡ stale_refuses refusal.now stops.now }
{
    stops.iter().any(|deed| is_stale_stop(refusal, deed))
}

// ---- by the choice

fn no_rescuer(
    alloc: Global,
    group: &Group,
    options: &EmergencyOptions,
    refusal: &Refusal,
    stops: &[Deed],
    seen: &Seen,
    winner: &Held,
) -> Result<bool, OutOfMemory>
    ensures { IfOk result (λ b. b ≡ is_err_of refusal.now (rescuer group.now options.now seen.now stops.now winner.now options.now.new_primary)) }
{
    let chosen = rescuer(
        alloc,
        group,
        options,
        seen,
        stops,
        winner,
        &options.new_primary,
    )?;
    Ok(is_err_of(refusal, &chosen))
}

fn rescue_refuses(
    alloc: Global,
    group: &Group,
    options: &EmergencyOptions,
    refusal: &Refusal,
    stops: &[Deed],
    seen: &Seen,
) -> Result<bool, OutOfMemory>
    ensures { IfOk result (λ b. b ≡ rescue_refuses group.now options.now refusal.now stops.now seen.now) }
{
    match winner_of(alloc, group, options, seen, stops)? {
        Ok(winner) => no_rescuer(alloc, group, options, refusal, stops, seen, &winner),
        Err(found) => Ok(refusal_eq(&found, refusal)),
    }
}

fn choice_refuses(
    alloc: Global,
    group: &Group,
    options: &EmergencyOptions,
    refusal: &Refusal,
    stops: &[Deed],
    deed: &Deed,
) -> Result<bool, OutOfMemory>
    ensures { IfOk result (λ b. b ≡ read_passes (rescue_refuses group.now options.now refusal.now stops.now) deed.now) }
{
    match deed {
        Deed::Read { reply: Ok(seen) } => {
            rescue_refuses(alloc, group, options, refusal, stops, seen)
        }
        _ => Ok(false),
    }
}

fn any_choice_refuses(
    alloc: Global,
    group: &Group,
    options: &EmergencyOptions,
    refusal: &Refusal,
    stops: &[Deed],
    span: &[Deed],
) -> Result<bool, OutOfMemory>
    ensures { IfOk result (λ b. b ≡ any_read (rescue_refuses group.now options.now refusal.now stops.now) span.now) }
{
    let mut left = span;
    while let Some((deed, more)) = left.split_first() {
        if choice_refuses(alloc, group, options, refusal, stops, deed)? {
            return Ok(true);
        }
        left = more;
    }
    Ok(false)
}

fn unrevoked_refuses(
    alloc: Global,
    group: &Group,
    options: &EmergencyOptions,
    refusal: &Refusal,
    stops: &[Deed],
) -> Result<bool, OutOfMemory>
    ensures { IfOk result (λ b. b ≡ is_this refusal.now (refusal_of_unrevoked group.now options.now.ignored stops.now)) }
{
    let found = refusal_of_unrevoked(alloc, group, options.ignored.as_slice(), stops)?;
    Ok(is_this(refusal, &found))
}

/// Whether all were stopped that were to be, and refuse the command so.
fn stops_refuse(
    alloc: Global,
    group: &Group,
    options: &EmergencyOptions,
    refusal: &Refusal,
    stops: &[Deed],
    span: &[Deed],
) -> Result<bool, OutOfMemory>
    ensures { IfOk result (λ b. b ≡ stops_refuse group.now options.now refusal.now stops.now span.now) }
{
    let asked = heeded(alloc, group, options.ignored.as_slice())?;
    if !are_settled(asked.as_slice(), stops) {
        return Ok(false);
    }
    if unrevoked_refuses(alloc, group, options, refusal, stops)? {
        return Ok(true);
    }
    any_choice_refuses(alloc, group, options, refusal, stops, span)
}

// ---- the causes

#[tactic(auto, unfolding(crate::specs::Emergency::refuses_early))]
fn refuses_early(
    group: &Group,
    options: &EmergencyOptions,
    span: &[Deed],
    refusal: &Refusal,
) -> bool
    ensures { result ≡ refuses_early group.now options.now span.now refusal.now }
{
    is_this(refusal, &refusal_of_emergency(group, options))
        || topology_refuses(refusal, span)
        || any_read_refuses(options, refusal, span)
}

#[tactic(auto, unfolding(crate::specs::Emergency::refuses_by_stale))]
fn refuses_by_stale(stops: &[Deed], refusal: &Refusal) -> bool
    ensures { result ≡ refuses_by_stale stops.now refusal.now }
{
    stale_refuses(refusal, stops)
}

#[tactic(auto, unfolding(crate::specs::Emergency::refuses_by_stopped))]
fn refuses_by_stopped(
    alloc: Global,
    group: &Group,
    options: &EmergencyOptions,
    stops: &[Deed],
    span: &[Deed],
    refusal: &Refusal,
) -> Result<bool, OutOfMemory>
    ensures { IfOk result (λ b. b ≡ refuses_by_stopped group.now options.now stops.now span.now refusal.now) }
{
    stops_refuse(alloc, group, options, refusal, stops, span)
}

fn refuses_by_those(
    alloc: Global,
    group: &Group,
    options: &EmergencyOptions,
    stops: &[Deed],
    span: &[Deed],
    refusal: &Refusal,
) -> Result<bool, OutOfMemory>
    ensures { IfOk result (λ b. b ≡ refuses_by_stops group.now options.now stops.now span.now refusal.now) }
{
    if refuses_by_stale(stops, refusal) {
        return Ok(true);
    }
    refuses_by_stopped(alloc, group, options, stops, span, refusal)
}

fn refuses_by_stops(
    alloc: Global,
    group: &Group,
    options: &EmergencyOptions,
    span: &[Deed],
    refusal: &Refusal,
) -> Result<bool, OutOfMemory>
    ensures { IfOk result (λ b. b ≡ refuses_by_stops group.now options.now (calls_of kinds.Stop span.now) span.now refusal.now) }
{
    let stops = calls_of(alloc, Kind::Stop, span)?;
    refuses_by_those(alloc, group, options, stops.as_slice(), span, refusal)
}

fn joining_refuses(span: &[Deed], refusal: &Refusal) -> bool
    ensures { result ≡ call_refuses is_set_source_kind refusal.now (before_first is_intended span.now) }
{
    call_refuses(Needed::SetSource, refusal, before_intent(span))
}

#[tactic(auto, unfolding(crate::specs::Emergency::refuses_late))]
fn refuses_late(span: &[Deed], refusal: &Refusal) -> bool
    ensures { result ≡ refuses_late span.now refusal.now }
{
    joining_refuses(span, refusal) || call_refuses(Needed::Emergency, refusal, span)
}

fn any_refuses(
    alloc: Global,
    group: &Group,
    options: &EmergencyOptions,
    span: &[Deed],
    refusal: &Refusal,
) -> Result<bool, OutOfMemory>
    ensures { IfOk result (λ b. b ≡ (refuses_early group.now options.now span.now refusal.now
        || refuses_by_stops group.now options.now (calls_of kinds.Stop span.now) span.now refusal.now || refuses_late span.now refusal.now)) }
{
    if refuses_early(group, options, span, refusal) {
        return Ok(true);
    }
    if refuses_by_stops(alloc, group, options, span, refusal)? {
        return Ok(true);
    }
    Ok(refuses_late(span, refusal))
}

/// Whether an `EmergencyReparentShard` with these options that did this is refused so.
pub(crate) fn is_refused(
    alloc: Global,
    group: &Group,
    options: &EmergencyOptions,
    span: &[Deed],
    refusal: &Refusal,
) -> Result<bool, OutOfMemory>
    ensures { IfOk result (λ b. b ≡ emergency_is_refused group.now options.now span.now refusal.now) }
{
    any_refuses(alloc, group, options, span, refusal)
}

fn has_refusal_cause(
    alloc: Global,
    group: &Group,
    options: &EmergencyOptions,
    span: &[Deed],
    refusal: &Refusal,
    undone: &Option<bool>,
) -> Result<bool, OutOfMemory>
    ensures { IfOk result (λ b. b ≡ (is_none undone.now && (is_want_of_memory refusal.now || emergency_is_refused group.now options.now span.now refusal.now))) }
{
    if undone.is_some() {
        return Ok(false);
    }
    if is_want_of_memory(refusal) {
        return Ok(true);
    }
    is_refused(alloc, group, options, span, refusal)
}

/// Whether an `EmergencyReparentShard` with these options that did this may end with the answer. A refusal for want of memory takes none.
pub fn has_emergency_cause(
    alloc: Global,
    group: &Group,
    options: &EmergencyOptions,
    state: &CommandState,
    span: &[Deed],
    answer: &CommandAnswer,
) -> Result<bool, OutOfMemory>
    ensures { IfOk result (λ b. b ≡ has_emergency_cause group.now options.now state.now span.now answer.now) }
{
    match answer {
        CommandAnswer::Promoted { alias, term, left } => {
            is_promoted(alloc, state, span, alias, *term, left.as_slice())
        }
        CommandAnswer::Refused { refusal, undone } => {
            has_refusal_cause(alloc, group, options, span, refusal, undone)
        }
        _ => Ok(false),
    }
}
