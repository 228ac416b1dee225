//! The course of a `vtorc`.

ghost use Rattle.std.specs.Prelude.{◌≡◌, ◌++◌, [], Ok, IfOk};
ghost use Rattle.shard_calls.specs.Analysis.{said_in};
ghost use Rattle.shard_calls.specs.Causes.{findings_of, forced, plain, statuses};
ghost use Rattle.shard_calls.specs.Refusals.{is_other_than, recorded_alias};
ghost use Rattle.courses.specs.Walks.{Walks, UnlessStarved, tried};
ghost use Rattle.courses.specs.Planned.{planned_course};
ghost use Rattle.courses.specs.Emergency.{emergency_course};
ghost use Rattle.recovery_loop.specs.Watch.{lines_of, healed_by, heals, acts_on, beside_record, of_record, watch_course};
ghost use Rattle.recovery_loop.specs.Said.{acts_said};

use crate::repairs::{nothing_done, one_line, refused, repairs_beside, watched};
use analysis::{findings_of, finds_orphaned, finds_to_repair, finds_urgent, statuses_of_both};
use courses::{Exit, Walk, emergency_course, planned_course, tried};
use refusals::{push_if, recorded_alias};
use shard_base::{Items, OutOfMemory};
use shard_calls::{
    Call, CommandAnswer, Deed, EmergencyOptions, Finding, Group, PlannedOptions, Refusal, Rest,
    Seen, TabletStatus,
};
use shard_names::Alias;
use std::alloc::Global;

// ---- a whole reparent inside

/// How long a call of the reparent may take, in milliseconds.
const TIMEOUT: u64 = 15_000;

/// The reparent inside has no options.
fn plain() -> PlannedOptions
    ensures { result ≡ plain }
{
    PlannedOptions {
        new_primary: None,
        avoid: None,
        expected: None,
        timeout: TIMEOUT,
        allow_cross_cell: false,
    }
}

fn forced(alloc: Global) -> EmergencyOptions
    ensures { result ≡ forced }
{
    EmergencyOptions {
        new_primary: None,
        ignored: Items::new(alloc),
        expected: None,
        timeout: TIMEOUT,
        prevent_cross_cell: false,
    }
}

/// What the reparent inside ended with, as a line.
fn lines_of(alloc: Global, answer: CommandAnswer) -> Result<Items<Rest>, OutOfMemory>
    ensures { IfOk result (λ rest. rest ≡ lines_of answer) }
{
    match answer {
        CommandAnswer::Promoted { alias, term, left } => {
            one_line(alloc, Rest::Promoted { alias, term, left })
        }
        CommandAnswer::Refused { refusal, undone } => {
            one_line(alloc, Rest::Refused { refusal, undone })
        }
        _ => Ok(Items::new(alloc)),
    }
}

/// What was found, and what the reparent inside came to.
fn healed_by(
    alloc: Global,
    findings: &[Finding],
    came: Result<CommandAnswer, Refusal>,
) -> Result<CommandAnswer, Exit>
    ensures { UnlessStarved result (Ok (healed_by findings.now came)) }
{
    let rest = match came {
        Ok(answer) => lines_of(alloc, answer)?,
        Err(refusal) => one_line(alloc, refused(refusal))?,
    };
    watched(alloc, findings, rest)
}

#[tactic(auto, using(crate::proofs::WalkLemmas::tried_walks))]
fn try_planned(walk: &mut Walk<'_>, group: &Group) -> Result<Result<CommandAnswer, Refusal>, Exit>
    ensures { Walks result walk.new.rest.now (tried (planned_course group.now plain) walk.old.rest.now) }
{
    let options = plain();
    tried(planned_course(walk, group, &options))
}

#[tactic(auto, using(crate::proofs::WalkLemmas::tried_walks))]
fn try_emergency(walk: &mut Walk<'_>, group: &Group) -> Result<Result<CommandAnswer, Refusal>, Exit>
    ensures { Walks result walk.new.rest.now (tried (emergency_course group.now forced) walk.old.rest.now) }
{
    let options = forced(walk.alloc());
    tried(emergency_course(walk, group, &options))
}

/// A primary is elected, as by a `PlannedReparentShard`.
#[tactic(auto, unfolding(crate::specs::Watch::heals))]
fn elects(walk: &mut Walk<'_>, group: &Group, findings: &[Finding]) -> Result<CommandAnswer, Exit>
    ensures { Walks result walk.new.rest.now (heals findings.now (planned_course group.now plain) walk.old.rest.now) }
{
    let came = try_planned(walk, group)?;
    healed_by(walk.alloc(), findings, came)
}

/// The primary is replaced, as by an `EmergencyReparentShard`.
#[tactic(auto, unfolding(crate::specs::Watch::heals))]
fn replaces(walk: &mut Walk<'_>, group: &Group, findings: &[Finding]) -> Result<CommandAnswer, Exit>
    ensures { Walks result walk.new.rest.now (heals findings.now (emergency_course group.now forced) walk.old.rest.now) }
{
    let came = try_emergency(walk, group)?;
    healed_by(walk.alloc(), findings, came)
}

// ---- the course

/// About what was found it does the first thing that helps.
fn acts_on(
    walk: &mut Walk<'_>,
    group: &Group,
    seen: &Seen,
    statuses: &[TabletStatus],
    findings: &[Finding],
) -> Result<CommandAnswer, Exit>
    ensures { Walks result walk.new.rest.now (acts_said group.now seen.now (said_in statuses.now) findings.now walk.old.rest.now) }
{
    if finds_orphaned(findings) {
        return elects(walk, group, findings);
    }
    if finds_urgent(findings) {
        return replaces(walk, group, findings);
    }
    if finds_to_repair(findings) {
        return repairs_beside(walk, &seen.recorded, findings, statuses);
    }
    nothing_done(walk.alloc(), findings)
}

/// By what these calls came to it finds what is amiss, and acts on it.
fn acts_by(
    walk: &mut Walk<'_>,
    group: &Group,
    seen: &Seen,
    those: &[Deed],
    primary: &[Deed],
) -> Result<CommandAnswer, Exit>
    ensures { Walks
        result
        walk.new.rest.now
        (acts_on group.now seen.now (those.now ++ primary.now) (findings_of group.now seen.now (those.now ++ primary.now)) walk.old.rest.now) }
{
    let alloc = walk.alloc();
    let drained = seen.drained.as_slice();
    let said = statuses_of_both(alloc, those, primary)?;
    let findings = findings_of(alloc, group, &seen.recorded, drained, said.as_slice())?;
    acts_on(walk, group, seen, said.as_slice(), findings.as_slice())
}

fn is_other_than(recorded: &Option<Alias>, alias: &Alias) -> bool
    ensures { result ≡ is_other_than recorded.now alias.now }
{
    match recorded {
        Some(recorded) => *alias != *recorded,
        None => true,
    }
}

/// All tablets but the recorded primary.
fn beside_record(
    alloc: Global,
    group: &Group,
    recorded: &Option<Alias>,
) -> Result<Items<Alias>, OutOfMemory>
    ensures { IfOk result (λ others. others ≡ beside_record group.now recorded.now) }
{
    let mut others = Items::new(alloc);
    for tablet in group.tablets.as_slice() {
        push_if(
            &mut others,
            is_other_than(recorded, &tablet.alias),
            &tablet.alias,
        )?;
    }
    Ok(others)
}

/// The recorded primary, if there is one.
fn of_record(alloc: Global, recorded: &Option<Alias>) -> Result<Items<Alias>, OutOfMemory>
    ensures { IfOk result (λ them. them ≡ of_record recorded.now) }
{
    let mut them = Items::new(alloc);
    if let Some(alias) = recorded {
        them.push(*alias)?;
    }
    Ok(them)
}

/// The course of a `vtorc`: it asks every tablet how it stands, the recorded primary last, and acts on what is amiss by what they say.
/// `seen` is the topology right after it began.
#[tactic(auto, unfolding(crate::specs::Watch::watch_course))]
pub fn watch_course(walk: &mut Walk<'_>, group: &Group, seen: &Seen) -> Result<CommandAnswer, Exit>
    ensures { Walks result walk.new.rest.now (watch_course group.now seen.now walk.old.rest.now) }
{
    let recorded = recorded_alias(&seen.recorded);
    let others = beside_record(walk.alloc(), group, &recorded)?;
    let them = of_record(walk.alloc(), &recorded)?;
    let those = walk.call_all(others.as_slice(), Call::Status)?;
    let primary = walk.call_all(them.as_slice(), Call::Status)?;
    acts_by(walk, group, seen, those, primary)
}
