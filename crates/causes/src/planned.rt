//! The causes of the answers of a `PlannedReparentShard`.

ghost use Rattle.std.specs.Prelude.{◌≡◌, ◌&&◌, ◌||◌, is_none, None, Some, IfOk};
ghost use Rattle.shard_calls.specs.Refusals.{refusal_by_demoted, refusal_by_seen, refusal_of_planned};
ghost use Rattle.shard_calls.specs.Choosing.{first_of, follower, candidates, are_settled};
ghost use Rattle.shard_calls.specs.declared.span.Kind.TheVariants as kinds;
ghost use Rattle.shard_calls.specs.Causes.{is_this, is_err_of, topology_refuses, read_passes, any_read, outcome_passes, answer_passes, any_answer, calls_of, demoted_refuses, following_refuses, intent_refuses, planned_seen_refuses, planned_refuses, planned_is_refused, is_idle, is_last_intended, is_want_of_memory, has_no_other_cause, has_planned_cause};

use crate::undoing::{any_undo_refuses, has_undone};
use refusals::{
    are_settled, candidates, first_of, follower, refusal_by_demoted, refusal_by_seen,
    refusal_of_crossing, refusal_of_planned,
};
use shard_base::OutOfMemory;
use shard_calls::{
    Answer, CommandAnswer, CommandState, Deed, Group, Kind, Outcome, PlannedOptions, Refusal, Seen,
};
use shard_names::Alias;
use spans::{
    Needed, call_refuses, calls_of, is_promoted, is_this, is_to, refusal_eq, topology_refuses,
};
use std::alloc::Global;
use topo_lock::Intent;

/// Whether the choice of a tablet was refused so.
pub(crate) fn is_err_of(refusal: &Refusal, chosen: &Result<Alias, Refusal>) -> bool
    ensures { result ≡ is_err_of refusal.now chosen.now }
{
    match chosen {
        Err(found) => refusal_eq(found, refusal),
        Ok(_) => false,
    }
}

// ---- by what the old primary was told

fn demoted_refuses(intent: &Intent, refusal: &Refusal, outcome: &Option<Outcome>) -> bool
    ensures { result ≡ outcome_passes (demoted_refuses intent.now refusal.now) outcome.now }
{
    match outcome {
        Some(Outcome::Answered { answer }) => {
            is_this(refusal, &refusal_by_demoted(intent, answer))
        }
        _ => false,
    }
}

fn demote_refuses(intent: &Intent, refusal: &Refusal, deed: &Deed) -> bool
    ensures { result ≡ answer_passes kinds.Demote intent.now.alias (demoted_refuses intent.now refusal.now) deed.now }
{
    match deed {
        Deed::Asked { asked } => {
            is_to(Kind::Demote, &intent.alias, asked)
                && demoted_refuses(intent, refusal, &asked.outcome)
        }
        _ => false,
    }
}

fn any_demote_refuses(intent: &Intent, refusal: &Refusal, span: &[Deed]) -> bool
    ensures { result ≡ any_answer kinds.Demote intent.now.alias (demoted_refuses intent.now refusal.now) span.now }
{
    span.iter()
        .any(|deed| demote_refuses(intent, refusal, deed))
}

// ---- by who may follow

fn no_follower(
    alloc: Global,
    group: &Group,
    allowed: bool,
    refusal: &Refusal,
    calls: &[Deed],
    seen: &Seen,
    old: &Alias,
) -> Result<bool, OutOfMemory>
    ensures { IfOk result (λ b. b ≡ is_err_of refusal.now (follower group.now allowed seen.now old.now calls.now)) }
{
    let chosen = follower(alloc, group, allowed, seen, old, calls)?;
    Ok(is_err_of(refusal, &chosen))
}

fn none_follows(
    alloc: Global,
    group: &Group,
    options: &PlannedOptions,
    refusal: &Refusal,
    span: &[Deed],
    seen: &Seen,
    intent: &Intent,
) -> Result<bool, OutOfMemory>
    ensures { IfOk result (λ b. b ≡ following_refuses group.now options.now refusal.now span.now seen.now intent.now None) }
{
    let allowed = options.allow_cross_cell;
    let calls = calls_of(alloc, Kind::Status, span)?;
    let asked = candidates(alloc, group, allowed, seen, &intent.alias)?;
    if !are_settled(asked.as_slice(), calls.as_slice()) {
        return Ok(false);
    }
    no_follower(
        alloc,
        group,
        allowed,
        refusal,
        calls.as_slice(),
        seen,
        &intent.alias,
    )
}

fn following_refuses(
    alloc: Global,
    group: &Group,
    options: &PlannedOptions,
    refusal: &Refusal,
    span: &[Deed],
    seen: &Seen,
    intent: &Intent,
) -> Result<bool, OutOfMemory>
    ensures { IfOk result (λ b. b ≡ following_refuses group.now options.now refusal.now span.now seen.now intent.now options.now.new_primary) }
{
    match &options.new_primary {
        Some(given) => {
            let found = refusal_of_crossing(options.allow_cross_cell, &intent.alias, given);
            Ok(is_this(refusal, &found))
        }
        None => none_follows(alloc, group, options, refusal, span, seen, intent),
    }
}

fn no_first(
    alloc: Global,
    group: &Group,
    options: &PlannedOptions,
    refusal: &Refusal,
    seen: &Seen,
) -> Result<bool, OutOfMemory>
    ensures { IfOk result (λ b. b ≡ (is_none options.now.new_primary && is_err_of refusal.now (first_of group.now seen.now options.now.avoid))) }
{
    if options.new_primary.is_some() {
        return Ok(false);
    }
    let chosen = first_of(alloc, group, seen, &options.avoid)?;
    Ok(is_err_of(refusal, &chosen))
}

fn later_refuses(
    alloc: Global,
    group: &Group,
    options: &PlannedOptions,
    refusal: &Refusal,
    span: &[Deed],
    seen: &Seen,
    intent: &Intent,
) -> Result<bool, OutOfMemory>
    ensures { IfOk result (λ b. b ≡ intent_refuses group.now options.now refusal.now span.now seen.now (Some intent.now)) }
{
    if following_refuses(alloc, group, options, refusal, span, seen, intent)? {
        return Ok(true);
    }
    Ok(any_demote_refuses(intent, refusal, span))
}

fn intent_refuses(
    alloc: Global,
    group: &Group,
    options: &PlannedOptions,
    refusal: &Refusal,
    span: &[Deed],
    seen: &Seen,
) -> Result<bool, OutOfMemory>
    ensures { IfOk result (λ b. b ≡ intent_refuses group.now options.now refusal.now span.now seen.now seen.now.intent) }
{
    match &seen.intent {
        Some(intent) => later_refuses(alloc, group, options, refusal, span, seen, intent),
        None => no_first(alloc, group, options, refusal, seen),
    }
}

fn seen_refuses(
    alloc: Global,
    group: &Group,
    options: &PlannedOptions,
    refusal: &Refusal,
    span: &[Deed],
    seen: &Seen,
) -> Result<bool, OutOfMemory>
    ensures { IfOk result (λ b. b ≡ planned_seen_refuses group.now options.now refusal.now span.now seen.now) }
{
    let found = refusal_by_seen(&options.expected, &options.new_primary, seen);
    if is_this(refusal, &found) {
        return Ok(true);
    }
    intent_refuses(alloc, group, options, refusal, span, seen)
}

fn read_refuses(
    alloc: Global,
    group: &Group,
    options: &PlannedOptions,
    refusal: &Refusal,
    span: &[Deed],
    deed: &Deed,
) -> Result<bool, OutOfMemory>
    ensures { IfOk result (λ b. b ≡ read_passes (planned_seen_refuses group.now options.now refusal.now span.now) deed.now) }
{
    match deed {
        Deed::Read { reply: Ok(seen) } => {
            seen_refuses(alloc, group, options, refusal, span, seen)
        }
        _ => Ok(false),
    }
}

fn any_read_refuses(
    alloc: Global,
    group: &Group,
    options: &PlannedOptions,
    refusal: &Refusal,
    span: &[Deed],
) -> Result<bool, OutOfMemory>
    ensures { IfOk result (λ b. b ≡ any_read (planned_seen_refuses group.now options.now refusal.now span.now) span.now) }
{
    let mut left = span;
    while let Some((deed, more)) = left.split_first() {
        if read_refuses(alloc, group, options, refusal, span, deed)? {
            return Ok(true);
        }
        left = more;
    }
    Ok(false)
}

// ---- the causes

fn planned_refuses(
    alloc: Global,
    group: &Group,
    options: &PlannedOptions,
    span: &[Deed],
    refusal: &Refusal,
) -> Result<bool, OutOfMemory>
    ensures { IfOk result (λ b. b ≡ planned_refuses group.now options.now span.now refusal.now) }
{
    if is_this(refusal, &refusal_of_planned(group, options)) {
        return Ok(true);
    }
    if topology_refuses(refusal, span) {
        return Ok(true);
    }
    if any_read_refuses(alloc, group, options, refusal, span)? {
        return Ok(true);
    }
    Ok(call_refuses(Needed::Planned, refusal, span))
}

/// Whether a `PlannedReparentShard` with these options that did this is refused so.
pub(crate) fn is_refused(
    alloc: Global,
    group: &Group,
    options: &PlannedOptions,
    span: &[Deed],
    refusal: &Refusal,
    undone: &Option<bool>,
) -> Result<bool, OutOfMemory>
    ensures { IfOk result (λ b. b ≡ planned_is_refused group.now options.now span.now refusal.now undone.now) }
{
    match undone {
        Some(undone) => Ok(any_undo_refuses(span, refusal, *undone)),
        None => {
            if has_undone(span) {
                return Ok(false);
            }
            planned_refuses(alloc, group, options, span, refusal)
        }
    }
}

/// Whether memory ran out.
pub(crate) fn is_want_of_memory(refusal: &Refusal) -> bool
    ensures { result ≡ is_want_of_memory refusal.now }
{
    matches!(refusal, Refusal::OutOfMemory)
}

/// Whether memory ran out, which needs no other cause, before any undo.
pub(crate) fn has_no_other_cause(refusal: &Refusal, undone: &Option<bool>) -> bool
    ensures { result ≡ has_no_other_cause refusal.now undone.now }
{
    undone.is_none() && is_want_of_memory(refusal)
}

fn has_refusal_cause(
    alloc: Global,
    group: &Group,
    options: &PlannedOptions,
    span: &[Deed],
    refusal: &Refusal,
    undone: &Option<bool>,
) -> Result<bool, OutOfMemory>
    ensures { IfOk result (λ b. b ≡ (has_no_other_cause refusal.now undone.now || planned_is_refused group.now options.now span.now refusal.now undone.now)) }
{
    if has_no_other_cause(refusal, undone) {
        return Ok(true);
    }
    is_refused(alloc, group, options, span, refusal, undone)
}

fn is_idle(avoid: &Option<Alias>, old: &Alias) -> bool
    ensures { result ≡ is_idle avoid.now old.now }
{
    match avoid {
        Some(alias) => *alias != *old,
        None => false,
    }
}

fn is_last_intended(alias: &Alias, intent: &Option<Intent>) -> bool
    ensures { result ≡ is_last_intended alias.now intent.now }
{
    match intent {
        Some(intent) => intent.alias == *alias,
        None => false,
    }
}

fn reads_last(alias: &Alias, deed: &Deed) -> bool
    ensures { result ≡ read_passes (λ seen. is_last_intended alias.now seen.intent) deed.now }
{
    match deed {
        Deed::Read { reply: Ok(seen) } => is_last_intended(alias, &seen.intent),
        _ => false,
    }
}

fn any_reads_last(alias: &Alias, span: &[Deed]) -> bool
    ensures { result ≡ any_read (λ seen. is_last_intended alias.now seen.intent) span.now }
{
    span.iter().any(|deed| reads_last(alias, deed))
}

/// Whether a `PlannedReparentShard` with these options that did this may end with the answer. A refusal for want of memory takes none.
pub fn has_planned_cause(
    alloc: Global,
    group: &Group,
    options: &PlannedOptions,
    state: &CommandState,
    span: &[Deed],
    answer: &CommandAnswer,
) -> Result<bool, OutOfMemory>
    ensures { IfOk result (λ b. b ≡ has_planned_cause group.now options.now state.now span.now answer.now) }
{
    match answer {
        CommandAnswer::Promoted { alias, term, left } => {
            is_promoted(alloc, state, span, alias, *term, left.as_slice())
        }
        CommandAnswer::NothingToDo { alias } => {
            Ok(is_idle(&options.avoid, alias) && any_reads_last(alias, span))
        }
        CommandAnswer::Refused { refusal, undone } => {
            has_refusal_cause(alloc, group, options, span, refusal, undone)
        }
        _ => Ok(false),
    }
}
