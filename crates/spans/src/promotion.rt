//! The cause of a promotion.

ghost use Rattle.std.specs.Prelude.{◌≡◌, ◌&&◌, ◌==◌, IfOk};
ghost use Rattle.std.specs.List.{list_any, flat_map};
ghost use Rattle.shard_names.specs.Tablets.{alias_eq};
ghost use Rattle.shard_calls.specs.Kinds.{kind_eq};
ghost use Rattle.shard_calls.specs.declared.span.Kind.TheVariants as kinds;
ghost use Rattle.shard_calls.specs.Causes.{is_some_of, is_promoted_answer, is_told_answer, outcome_passes, said_in, any_said_in, records_it, not_joined, calls_of, leaves_out, is_promoted};
ghost use Rattle.shard_calls.specs.Same.{not_joined_eq};

use crate::calls::{is_promoted_answer, is_to};
use crate::copying::calls_of;
use crate::lists::not_joined_eq;
use refusals::not_joined;
use shard_base::OutOfMemory;
use shard_calls::{Answer, Asked, CommandState, Deed, Kind, NotJoined, Outcome};
use shard_names::Alias;
use std::alloc::Global;

fn is_some_of(term: &Option<u64>, other: u64) -> bool
    ensures { result ≡ is_some_of term.now other }
{
    match term {
        Some(term) => *term == other,
        None => false,
    }
}

fn is_told_answer(outcome: &Option<Outcome>) -> bool
    ensures { result ≡ outcome_passes is_told_answer outcome.now }
{
    matches!(
        outcome,
        Some(Outcome::Answered {
            answer: Answer::Told
        })
    )
}

fn is_to_in(term: u64, kind: Kind, alias: &Alias, asked: &Asked) -> bool
    ensures { result ≡ (kind_eq asked.now.kind kind && alias_eq asked.now.alias alias.now && (asked.now.term == term)) }
{
    is_to(kind, alias, asked) && asked.term == term
}

fn was_promoted_by(term: u64, alias: &Alias, deed: &Deed) -> bool
    ensures { result ≡ said_in term kinds.Promote alias.now is_promoted_answer deed.now }
{
    match deed {
        Deed::Asked { asked } => {
            is_to_in(term, Kind::Promote, alias, asked) && is_promoted_answer(&asked.outcome)
        }
        _ => false,
    }
}

fn was_promoted(term: u64, alias: &Alias, span: &[Deed]) -> bool
    ensures { result ≡ any_said_in term kinds.Promote alias.now is_promoted_answer span.now }
{
    span.iter().any(|deed| was_promoted_by(term, alias, deed))
}

fn was_told_by(term: u64, alias: &Alias, deed: &Deed) -> bool
    ensures { result ≡ said_in term kinds.WaitTold alias.now is_told_answer deed.now }
{
    match deed {
        Deed::Asked { asked } => {
            is_to_in(term, Kind::WaitTold, alias, asked) && is_told_answer(&asked.outcome)
        }
        _ => false,
    }
}

fn was_told(term: u64, alias: &Alias, span: &[Deed]) -> bool
    ensures { result ≡ any_said_in term kinds.WaitTold alias.now is_told_answer span.now }
{
    span.iter().any(|deed| was_told_by(term, alias, deed))
}

/// Whether the deed recorded the tablet.
pub fn records_it(alias: &Alias, deed: &Deed) -> bool
    ensures { result ≡ records_it alias.now deed.now }
{
    match deed {
        Deed::Recorded {
            alias: other,
            reply: Ok(_),
        } => *other == *alias,
        _ => false,
    }
}

/// Whether exactly these did not join, by the calls that told them to.
fn leaves(alloc: Global, left: &[NotJoined], later: &[Deed]) -> Result<bool, OutOfMemory>
    ensures { IfOk result (λ b. b ≡ not_joined_eq left.now (flat_map not_joined (calls_of kinds.SetSource later.now))) }
{
    let calls = calls_of(alloc, Kind::SetSource, later)?;
    let found = not_joined(alloc, calls.as_slice())?;
    Ok(not_joined_eq(left, found.as_slice()))
}

fn leaves_after(
    alloc: Global,
    alias: &Alias,
    left: &[NotJoined],
    deed: &Deed,
    later: &[Deed],
) -> Result<bool, OutOfMemory>
    ensures { IfOk result (λ b. b ≡ (records_it alias.now deed.now && not_joined_eq left.now (flat_map not_joined (calls_of kinds.SetSource later.now)))) }
{
    if !records_it(alias, deed) {
        return Ok(false);
    }
    leaves(alloc, left, later)
}

/// Whether exactly these did not join after the tablet was recorded.
fn leaves_out(
    alloc: Global,
    alias: &Alias,
    left: &[NotJoined],
    span: &[Deed],
) -> Result<bool, OutOfMemory>
    ensures { IfOk result (λ b. b ≡ leaves_out alias.now left.now span.now) }
{
    let mut rest = span;
    while let Some((deed, later)) = rest.split_first() {
        if leaves_after(alloc, alias, left, deed, later)? {
            return Ok(true);
        }
        rest = later;
    }
    Ok(false)
}

/// Whether the tablet's promotion, in the term that the command took, was answered so and counts as committed, the command recorded it, and
/// exactly these did not join.
pub fn is_promoted(
    alloc: Global,
    state: &CommandState,
    span: &[Deed],
    alias: &Alias,
    term: u64,
    left: &[NotJoined],
) -> Result<bool, OutOfMemory>
    ensures { IfOk result (λ b. b ≡ is_promoted state.now span.now alias.now term left.now) }
{
    if !is_some_of(&state.term, term) {
        return Ok(false);
    }
    if !was_promoted(term, alias, span) {
        return Ok(false);
    }
    if !was_told(term, alias, span) {
        return Ok(false);
    }
    leaves_out(alloc, alias, left, span)
}
