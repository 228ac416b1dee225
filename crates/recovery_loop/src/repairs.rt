//! Repairs of tablets beside their primary, and what a `vtorc` ends with.

ghost use Rattle.std.specs.Prelude.{◌≡◌, [], ◌∷◌, ◌++◌, Ok, None, IfOk, OnOk};
ghost use Rattle.shard_calls.specs.declared.ending.Rest.TheVariants as lines;
ghost use Rattle.shard_calls.specs.Analysis.{said_in, to_repair};
ghost use Rattle.shard_calls.specs.Refusals.{recorded_alias};
ghost use Rattle.courses.specs.Walks.{Walks, UnlessStarved, tried, drains, takes_lock};
ghost use Rattle.recovery_loop.specs.Watch.{watched, joins, marked, marks, repairs, repairs_all, repairs_under_lock, repairs_under, repairs_by};
ghost use Rattle.recovery_loop.specs.Said.{repairs_said};

use analysis::{is_errant, joined_or_left, problems, status_of, to_repair};
use courses::{Exit, Walk, tried};
use gtid_sets::GtidSet;
use refusals::left_by;
use shard_base::{Items, OutOfMemory};
use shard_calls::{
    Bar, Call, CommandAnswer, Finding, Left, NotJoined, NotStopped, Reason, Refusal, Rejected,
    Rest, Stand, Standing, TabletStatus, Unacked, Unreached, Why,
};
use shard_names::Alias;
use std::alloc::Global;
use topo_lock::Record;

// ---- what it ends with

/// Puts the line at the end.
fn push_line(into: &mut Items<Rest>, line: Rest) -> Result<(), OutOfMemory>
    ensures { OnOk result (into.new ≡ into.old ++ line ∷ []) }
{
    let _refusal: Option<&Refusal> = None;
    let _bar: Option<&Bar> = None;
    let _reason: Option<&Reason> = None;
    let _rejected: Option<&Rejected> = None;
    let _stopped: Option<&NotStopped> = None;
    let _unreached: Option<&Unreached> = None;
    let _unacked: Option<&Unacked> = None;
    let _standing: Option<&Standing> = None;
    let _joined: Option<&NotJoined> = None;
    let _left: Option<&Left> = None;
    let _why: Option<&Why> = None;
    into.push(line)
}

/// One line.
pub(crate) fn one_line(alloc: Global, line: Rest) -> Result<Items<Rest>, OutOfMemory>
    ensures { IfOk result (λ rest. rest ≡ line ∷ []) }
{
    let mut rest = Items::new(alloc);
    push_line(&mut rest, line)?;
    Ok(rest)
}

/// That it was refused, where nothing was undone.
pub(crate) fn refused(refusal: Refusal) -> Rest
    ensures { result ≡ lines.Refused refusal None }
{
    Rest::Refused {
        refusal,
        undone: None,
    }
}

/// What was found, as far as it is a problem, and what was done about it.
pub(crate) fn watched(
    alloc: Global,
    findings: &[Finding],
    rest: Items<Rest>,
) -> Result<CommandAnswer, Exit>
    ensures { UnlessStarved result (Ok (watched findings.now rest)) }
{
    let findings = problems(alloc, findings)?;
    Ok(CommandAnswer::Vtorc { findings, rest })
}

/// What was found, where nothing was done about it.
pub(crate) fn nothing_done(alloc: Global, findings: &[Finding]) -> Result<CommandAnswer, Exit>
    ensures { UnlessStarved result (Ok (watched findings.now [])) }
{
    watched(alloc, findings, Items::new(alloc))
}

/// What was found, where the last line is a refusal.
fn barred(
    alloc: Global,
    findings: &[Finding],
    mut so_far: Items<Rest>,
    refusal: Refusal,
) -> Result<CommandAnswer, Exit>
    ensures { UnlessStarved result (Ok (watched findings.now (so_far ++ lines.Refused refusal None ∷ []))) }
{
    push_line(&mut so_far, refused(refusal))?;
    watched(alloc, findings, so_far)
}

// ---- one repair

/// The tablet is to replicate from the primary of this term, which has this position; it joins, or is left for whatever comes of that.
#[tactic(auto, unfolding(crate::specs::Watch::joins))]
fn joins(
    walk: &mut Walk<'_>,
    primary: &Alias,
    term: u64,
    has: &GtidSet,
    alias: &Alias,
) -> Result<Result<Rest, Refusal>, Exit>
    ensures { Walks result walk.new.rest.now (joins primary.now term has.now alias.now walk.old.rest.now) }
{
    let join = Call::SetSource {
        source: *primary,
        stand: term,
        position: has.copy()?,
    };
    let outcome = walk.call(alias, join)?;
    let left = left_by(outcome)?;
    Ok(Ok(joined_or_left(primary, alias, left)))
}

fn marked(alias: &Alias, came: Result<(), Refusal>) -> Result<Rest, Refusal>
    ensures { result ≡ marked alias.now came }
{
    match came {
        Ok(()) => Ok(Rest::Drained { alias: *alias }),
        Err(refusal) => Err(refusal),
    }
}

#[tactic(auto, using(crate::proofs::WalkLemmas::tried_is))]
fn try_to_drain(walk: &mut Walk<'_>, alias: &Alias) -> Result<Result<(), Refusal>, Exit>
    ensures { Walks result walk.new.rest.now (tried (drains alias.now) walk.old.rest.now) }
{
    tried(walk.drain(alias))
}

/// The tablet is marked as drained.
#[tactic(auto, unfolding(crate::specs::Watch::marks))]
fn marks(walk: &mut Walk<'_>, alias: &Alias) -> Result<Result<Rest, Refusal>, Exit>
    ensures { Walks result walk.new.rest.now (marks alias.now walk.old.rest.now) }
{
    let came = try_to_drain(walk, alias)?;
    Ok(marked(alias, came))
}

#[tactic(auto, unfolding(crate::specs::Watch::repairs))]
fn repairs(
    walk: &mut Walk<'_>,
    primary: &Alias,
    term: u64,
    has: &GtidSet,
    finding: &Finding,
) -> Result<Result<Rest, Refusal>, Exit>
    ensures { Walks result walk.new.rest.now (repairs primary.now term has.now finding.now walk.old.rest.now) }
{
    if is_errant(finding.analysis) {
        return marks(walk, &finding.alias);
    }
    joins(walk, primary, term, has, &finding.alias)
}

// ---- all of them

/// One after another. The first refusal is the last line.
#[tactic(auto, unfolding(crate::specs::Watch::repairs_all))]
fn repairs_each(
    walk: &mut Walk<'_>,
    primary: &Alias,
    term: u64,
    has: &GtidSet,
    findings: &[Finding],
    due: &[Finding],
) -> Result<CommandAnswer, Exit>
    ensures { Walks
        result
        walk.new.rest.now
        (repairs_all primary.now term has.now findings.now due.now [] walk.old.rest.now) }
{
    let alloc = walk.alloc();
    let mut rest = Items::new(alloc);
    let mut left = due;
    while let Some((finding, more)) = left.split_first() {
        match repairs(walk, primary, term, has, finding)? {
            Ok(line) => push_line(&mut rest, line)?,
            Err(refusal) => return barred(alloc, findings, rest, refusal),
        }
        left = more;
    }
    watched(alloc, findings, rest)
}

fn repairs_all(
    walk: &mut Walk<'_>,
    primary: &Alias,
    term: u64,
    has: &GtidSet,
    findings: &[Finding],
) -> Result<CommandAnswer, Exit>
    ensures { Walks
        result
        walk.new.rest.now
        (repairs_all primary.now term has.now findings.now (to_repair findings.now) [] walk.old.rest.now) }
{
    let due = to_repair(walk.alloc(), findings)?;
    repairs_each(walk, primary, term, has, findings, due.as_slice())
}

#[tactic(auto, using(crate::proofs::WalkLemmas::tried_is))]
fn try_to_take_lock(walk: &mut Walk<'_>) -> Result<Result<u64, Refusal>, Exit>
    ensures { Walks result walk.new.rest.now (tried takes_lock walk.old.rest.now) }
{
    tried(walk.take_lock())
}

/// Under the lock the tablets are repaired beside this primary.
#[tactic(auto, unfolding(crate::specs::Watch::repairs_under))]
fn repairs_under(
    walk: &mut Walk<'_>,
    primary: &Alias,
    stand: &Stand,
    has: &GtidSet,
    findings: &[Finding],
) -> Result<CommandAnswer, Exit>
    ensures { Walks result walk.new.rest.now (repairs_under primary.now stand.now has.now findings.now walk.old.rest.now) }
{
    let alloc = walk.alloc();
    let Stand::Primary { term } = stand else {
        return nothing_done(alloc, findings);
    };
    match try_to_take_lock(walk)? {
        Ok(_) => repairs_all(walk, primary, *term, has, findings),
        Err(refusal) => barred(alloc, findings, Items::new(alloc), refusal),
    }
}

/// The tablets are repaired beside this primary, if it said that it stands as one.
fn repairs_by(
    walk: &mut Walk<'_>,
    primary: &Alias,
    findings: &[Finding],
    statuses: &[TabletStatus],
) -> Result<CommandAnswer, Exit>
    ensures { Walks result walk.new.rest.now (repairs_by primary.now findings.now (said_in statuses.now primary.now) walk.old.rest.now) }
{
    match status_of(statuses, primary) {
        Some(status) => repairs_under(walk, primary, &status.stand, &status.position, findings),
        None => nothing_done(walk.alloc(), findings),
    }
}

/// The tablets are repaired beside the recorded primary, if it said that it stands as one.
pub(crate) fn repairs_beside(
    walk: &mut Walk<'_>,
    recorded: &Option<Record>,
    findings: &[Finding],
    statuses: &[TabletStatus],
) -> Result<CommandAnswer, Exit>
    ensures { Walks result walk.new.rest.now (repairs_said (recorded_alias recorded.now) findings.now (said_in statuses.now) walk.old.rest.now) }
{
    match recorded {
        Some(record) => repairs_by(walk, &record.alias, findings, statuses),
        None => nothing_done(walk.alloc(), findings),
    }
}
