//! The causes of the answers of a `vtorc`.

ghost use Rattle.std.specs.Prelude.{◌≡◌, ◌&&◌, is_some, map, IfOk};
ghost use Rattle.std.specs.List.{list_all};
ghost use Rattle.shard_calls.specs.Analysis.{problems};
ghost use Rattle.shard_calls.specs.Choosing.{are_settled, outcome_of};
ghost use Rattle.shard_calls.specs.Same.{findings_eq, lines_eq};
ghost use Rattle.causes.specs.Watching.{forced_refuses, line_alone, is_line};
ghost use Rattle.std.specs.Option.{option_copied};
ghost use Rattle.shard_calls.specs.Causes.{planned_is_refused, findings_of, lines_beside, is_taking, from_first, plain, is_promoted, is_line_of_reparent, are_lines_of, is_watched, has_vtorc_cause};

use crate::planned::has_no_other_cause;
use crate::{emergency, planned};
use analysis::{findings_by, finds_orphaned, finds_urgent, forced, lines_beside, plain, problems};
use refusals::outcome_of;
use shard_base::{Items, OutOfMemory};
use shard_calls::{
    CommandAnswer, CommandState, Deed, Finding, Group, Kind, NotJoined, Refusal, Rest, Seen,
};
use shard_names::Alias;
use spans::{calls_of, findings_eq, from_taking, is_promoted, lines_eq};
use std::alloc::Global;

// ---- by what was asked

/// Whether each tablet was called, and its first call is settled.
fn all_settled(group: &Group, calls: &[Deed]) -> bool
    ensures { result ≡ list_all (λ t. is_some (outcome_of calls.now t.alias)) group.now.tablets }
{
    let tablets = group.tablets.as_slice();
    tablets
        .iter()
        .all(|tablet| outcome_of(calls, &tablet.alias).is_some())
}

fn all_were_asked(group: &Group, calls: &[Deed]) -> bool
    ensures { result ≡ are_settled (map (λ t. t.alias) group.now.tablets) calls.now }
{
    all_settled(group, calls)
}

/// Whether these are the problems among what was found.
fn are_problems(alloc: Global, findings: &[Finding], found: &[Finding]) -> Result<bool, OutOfMemory>
    ensures { IfOk result (λ b. b ≡ findings_eq findings.now (problems found.now)) }
{
    let problems = problems(alloc, found)?;
    Ok(findings_eq(findings, problems.as_slice()))
}

// ---- by what was done

fn is_promoted_so(
    alloc: Global,
    state: &CommandState,
    span: &[Deed],
    alias: &Alias,
    term: u64,
    left: &Items<NotJoined>,
) -> Result<bool, OutOfMemory>
    ensures { IfOk result (λ b. b ≡ is_promoted state.now span.now alias.now term left.now) }
{
    is_promoted(alloc, state, span, alias, term, left.as_slice())
}

/// The line, if it is the only one.
fn line_alone(rest: &[Rest]) -> Option<&Rest>
    ensures { option_copied result ≡ line_alone rest.now }
{
    let (line, more) = rest.split_first()?;
    if more.is_empty() { Some(line) } else { None }
}

fn is_planned_line(
    alloc: Global,
    group: &Group,
    state: &CommandState,
    span: &[Deed],
    rest: &[Rest],
) -> Result<bool, OutOfMemory>
    ensures { IfOk result (λ b. b ≡ is_line
        (planned_is_refused group.now plain (from_first is_taking span.now)) state.now span.now (line_alone rest.now)) }
{
    match line_alone(rest) {
        Some(Rest::Promoted { alias, term, left }) => {
            is_promoted_so(alloc, state, span, alias, *term, left)
        }
        Some(Rest::Refused { refusal, undone }) => planned::is_refused(
            alloc,
            group,
            &plain(),
            from_taking(span),
            refusal,
            undone,
        ),
        _ => Ok(false),
    }
}

fn is_line_of_planned(
    alloc: Global,
    group: &Group,
    state: &CommandState,
    span: &[Deed],
    rest: &[Rest],
) -> Result<bool, OutOfMemory>
    ensures { IfOk result (λ b. b ≡ is_line_of_reparent
        (planned_is_refused group.now plain (from_first is_taking span.now)) state.now span.now rest.now) }
{
    is_planned_line(alloc, group, state, span, rest)
}

/// Whether the emergency reparent is refused so, which undoes nothing.
fn forced_refuses(
    alloc: Global,
    group: &Group,
    span: &[Deed],
    refusal: &Refusal,
    undone: &Option<bool>,
) -> Result<bool, OutOfMemory>
    ensures { IfOk result (λ b. b ≡ forced_refuses group.now span.now refusal.now undone.now) }
{
    match undone {
        Some(_) => Ok(false),
        None => emergency::is_refused(alloc, group, &forced(alloc), span, refusal),
    }
}

fn is_emergency_line(
    alloc: Global,
    group: &Group,
    state: &CommandState,
    span: &[Deed],
    rest: &[Rest],
) -> Result<bool, OutOfMemory>
    ensures { IfOk result (λ b. b ≡ is_line (forced_refuses group.now span.now) state.now span.now (line_alone rest.now)) }
{
    match line_alone(rest) {
        Some(Rest::Promoted { alias, term, left }) => {
            is_promoted_so(alloc, state, span, alias, *term, left)
        }
        Some(Rest::Refused { refusal, undone }) => {
            forced_refuses(alloc, group, span, refusal, undone)
        }
        _ => Ok(false),
    }
}

fn is_line_of_emergency(
    alloc: Global,
    group: &Group,
    state: &CommandState,
    span: &[Deed],
    rest: &[Rest],
) -> Result<bool, OutOfMemory>
    ensures { IfOk result (λ b. b ≡ is_line_of_reparent (forced_refuses group.now span.now) state.now span.now rest.now) }
{
    is_emergency_line(alloc, group, state, span, rest)
}

fn are_lines_beside(
    alloc: Global,
    seen: &Seen,
    span: &[Deed],
    rest: &[Rest],
) -> Result<bool, OutOfMemory>
    ensures { IfOk result (λ b. b ≡ lines_eq rest.now (lines_beside seen.now.recorded span.now)) }
{
    let lines = lines_beside(alloc, &seen.recorded, span)?;
    Ok(lines_eq(rest, lines.as_slice()))
}

/// Whether this was done about what was found.
fn are_lines_of(
    alloc: Global,
    group: &Group,
    state: &CommandState,
    span: &[Deed],
    found: &[Finding],
    rest: &[Rest],
) -> Result<bool, OutOfMemory>
    ensures { IfOk result (λ b. b ≡ are_lines_of group.now state.now.opening.seen state.now span.now found.now rest.now) }
{
    if finds_orphaned(found) {
        return is_line_of_planned(alloc, group, state, span, rest);
    }
    if finds_urgent(found) {
        return is_line_of_emergency(alloc, group, state, span, rest);
    }
    are_lines_beside(alloc, &state.opening.seen, span, rest)
}

// ---- the causes

/// Whether these are the problems among what was found, and this was done about it.
fn are_of_found(
    alloc: Global,
    group: &Group,
    state: &CommandState,
    span: &[Deed],
    found: &[Finding],
    findings: &[Finding],
    rest: &[Rest],
) -> Result<bool, OutOfMemory>
    ensures { IfOk result (λ b. b ≡ (findings_eq findings.now (problems found.now)
        && are_lines_of group.now state.now.opening.seen state.now span.now found.now rest.now)) }
{
    if !are_problems(alloc, findings, found)? {
        return Ok(false);
    }
    are_lines_of(alloc, group, state, span, found, rest)
}

fn is_watched(
    alloc: Global,
    group: &Group,
    state: &CommandState,
    span: &[Deed],
    findings: &[Finding],
    rest: &[Rest],
) -> Result<bool, OutOfMemory>
    ensures { IfOk result (λ b. b ≡ is_watched group.now state.now span.now findings.now rest.now) }
{
    let calls = calls_of(alloc, Kind::Status, span)?;
    if !all_were_asked(group, calls.as_slice()) {
        return Ok(false);
    }
    let found = findings_by(alloc, group, &state.opening.seen, calls.as_slice())?;
    are_of_found(alloc, group, state, span, found.as_slice(), findings, rest)
}

/// Whether a `vtorc` that did this may end with the answer. A refusal for want of memory takes none.
pub fn has_vtorc_cause(
    alloc: Global,
    group: &Group,
    state: &CommandState,
    span: &[Deed],
    answer: &CommandAnswer,
) -> Result<bool, OutOfMemory>
    ensures { IfOk result (λ b. b ≡ has_vtorc_cause group.now state.now span.now answer.now) }
{
    match answer {
        CommandAnswer::Vtorc { findings, rest } => {
            is_watched(
                alloc,
                group,
                state,
                span,
                findings.as_slice(),
                rest.as_slice(),
            )
        }
        CommandAnswer::Refused { refusal, undone } => Ok(has_no_other_cause(refusal, undone)),
        _ => Ok(false),
    }
}
