//! The course of `PlannedReparentShard`.

ghost use Rattle.std.specs.Prelude.{◌≡◌, Ok, Err, Some, None};
ghost use Rattle.shard_calls.specs.declared.ending.CommandAnswer.TheVariants as endings;
ghost use Rattle.shard_calls.specs.Causes.{is_idle};
ghost use Rattle.courses.specs.Walks.{Walks, UnlessStarved, tried};
ghost use Rattle.courses.specs.Promoting.{established, promotes};
ghost use Rattle.courses.specs.Planned.{demoted_position, following, holding, demotes, catches_up, undone_by, undoes, reparents_all, replaces, reparents_from, reparents_by, planned_course};

use crate::Exit;
use crate::choosing::{first_primary, successor};
use crate::promoting::{established, others_than, promotes, reparents};
use crate::walk::{Walk, refusing, tried};
use gtid_sets::GtidSet;
use refusals::{refusal_by_demoted, refusal_by_seen, refusal_of_planned};
use shard_calls::{Answer, Call, CommandAnswer, Group, PlannedOptions, Refusal, Seen};
use shard_names::Alias;
use topo_lock::Intent;

/// What the tablet of the intent had when it was demoted: the row of that term, and nothing newer.
fn demoted_position(intent: &Intent, answer: &Answer) -> Result<GtidSet, Exit>
    ensures { UnlessStarved result (demoted_position intent.now answer.now) }
{
    match answer {
        Answer::Demoted { newest, position } if *newest == intent.term => Ok(position.copy()?),
        _ => Err(Exit::Strays),
    }
}

/// That a tablet follows, or has promised a later term and so has followed already.
pub(crate) fn following(answer: &Answer) -> Result<(), Exit>
    ensures { result ≡ following answer.now }
{
    match answer {
        Answer::Joined => Ok(()),
        Answer::Kept { .. } => Ok(()),
        Answer::PromisedAhead { .. } => Ok(()),
        _ => Err(Exit::Strays),
    }
}

pub(crate) fn holding(answer: &Answer) -> Result<(), Exit>
    ensures { result ≡ holding answer.now }
{
    match answer {
        Answer::Holds => Ok(()),
        _ => Err(Exit::Strays),
    }
}

/// The old primary takes no more writes, and says what it has.
#[tactic(auto, unfolding(crate::specs::Planned::demotes))]
fn demotes(walk: &mut Walk<'_>, intent: &Intent) -> Result<GtidSet, Exit>
    ensures { Walks result walk.new.rest.now (demotes intent.now walk.old.rest.now) }
{
    let answer = walk.need(&intent.alias, Call::Demote)?;
    refusing(refusal_by_demoted(intent, answer))?;
    demoted_position(intent, answer)
}

/// The tablet comes to have all that the old primary has.
#[tactic(auto, unfolding(crate::specs::Planned::catches_up))]
fn catches_up(
    walk: &mut Walk<'_>,
    timeout: u64,
    intent: &Intent,
    alias: &Alias,
    position: &GtidSet,
) -> Result<(), Exit>
    ensures { Walks result walk.new.rest.now (catches_up timeout intent.now alias.now position.now walk.old.rest.now) }
{
    let join = Call::SetSource {
        source: intent.alias,
        stand: intent.term,
        position: position.copy()?,
    };
    let followed = walk.need(alias, join)?;
    following(followed)?;
    let wait = Call::WaitFor {
        position: position.copy()?,
        until: timeout,
    };
    let held = walk.need(alias, wait)?;
    holding(held)
}

/// After an undo it ends refused all the same.
fn given_back(undone: bool, refusal: Refusal) -> CommandAnswer
    ensures { result ≡ endings.Refused refusal (Some undone) }
{
    CommandAnswer::Refused {
        refusal,
        undone: Some(undone),
    }
}

#[tactic(auto, using(crate::proofs::WalkLemmas::walks_tried))]
fn try_to_establish(
    walk: &mut Walk<'_>,
    timeout: u64,
    others: &[Alias],
    term: u64,
    alias: &Alias,
    position: GtidSet,
) -> Result<Result<CommandAnswer, Refusal>, Exit>
    ensures { Walks result walk.new.rest.now (tried (established timeout others.now term alias.now position) walk.old.rest.now) }
{
    tried(established(walk, timeout, others, term, alias, position))
}

#[tactic(auto, using(crate::proofs::WalkLemmas::walks_tried))]
fn try_to_promote(
    walk: &mut Walk<'_>,
    alias: &Alias,
    position: GtidSet,
) -> Result<Result<GtidSet, Refusal>, Exit>
    ensures { Walks result walk.new.rest.now (tried (promotes alias.now position) walk.old.rest.now) }
{
    tried(promotes(walk, alias, position))
}

#[tactic(auto, using(crate::proofs::WalkLemmas::walks_tried))]
fn try_to_catch_up(
    walk: &mut Walk<'_>,
    timeout: u64,
    intent: &Intent,
    alias: &Alias,
    position: &GtidSet,
) -> Result<Result<(), Refusal>, Exit>
    ensures { Walks result walk.new.rest.now (tried (catches_up timeout intent.now alias.now position.now) walk.old.rest.now) }
{
    tried(catches_up(walk, timeout, intent, alias, position))
}

/// What the old primary, promoted again, does like any other; how that ends is not told.
#[tactic(auto, unfolding(crate::specs::Planned::undone_by))]
fn undone(
    walk: &mut Walk<'_>,
    group: &Group,
    timeout: u64,
    term: u64,
    old: &Alias,
    refusal: Refusal,
    position: GtidSet,
) -> Result<CommandAnswer, Exit>
    ensures { Walks result walk.new.rest.now (undone_by group.now timeout term old.now refusal (Ok position) walk.old.rest.now) }
{
    let others = others_than(walk.alloc(), group, old)?;
    let _ended = try_to_establish(walk, timeout, others.as_slice(), term, old, position)?;
    Ok(given_back(true, refusal))
}

/// The old primary is promoted again.
#[tactic(auto, unfolding(crate::specs::Planned::undoes, crate::specs::Planned::undone_by))]
fn undoes(
    walk: &mut Walk<'_>,
    group: &Group,
    timeout: u64,
    term: u64,
    old: &Alias,
    position: GtidSet,
    refusal: Refusal,
) -> Result<CommandAnswer, Exit>
    ensures { Walks result walk.new.rest.now (undoes group.now timeout term old.now position refusal walk.old.rest.now) }
{
    match try_to_promote(walk, old, position)? {
        Ok(position) => undone(walk, group, timeout, term, old, refusal, position),
        Err(_) => Ok(given_back(false, refusal)),
    }
}

/// The tablet is promoted, and all others are to join it.
#[tactic(auto, unfolding(crate::specs::Planned::reparents_all))]
fn reparents_all(
    walk: &mut Walk<'_>,
    group: &Group,
    timeout: u64,
    term: u64,
    alias: &Alias,
    position: GtidSet,
) -> Result<CommandAnswer, Exit>
    ensures { Walks result walk.new.rest.now (reparents_all group.now timeout term alias.now position walk.old.rest.now) }
{
    let others = others_than(walk.alloc(), group, alias)?;
    reparents(walk, timeout, others.as_slice(), term, alias, position)
}

#[tactic(auto, unfolding(crate::specs::Planned::replaces, crate::specs::Planned::replaced_by))]
fn replaces(
    walk: &mut Walk<'_>,
    group: &Group,
    timeout: u64,
    term: u64,
    intent: &Intent,
    alias: &Alias,
    position: GtidSet,
) -> Result<CommandAnswer, Exit>
    ensures { Walks result walk.new.rest.now (replaces group.now timeout term intent.now alias.now position walk.old.rest.now) }
{
    if *alias == intent.alias {
        return reparents_all(walk, group, timeout, term, alias, position);
    }
    match try_to_catch_up(walk, timeout, intent, alias, &position)? {
        Ok(()) => reparents_all(walk, group, timeout, term, alias, position),
        Err(refusal) => undoes(walk, group, timeout, term, &intent.alias, position, refusal),
    }
}

/// Whether another tablet is to be avoided than the primary.
fn is_idle(avoided: &Option<Alias>, old: &Alias) -> bool
    ensures { result ≡ is_idle avoided.now old.now }
{
    match avoided {
        Some(avoided) => *avoided != *old,
        None => false,
    }
}

#[tactic(auto, unfolding(crate::specs::Planned::reparents_from))]
fn reparents_from(
    walk: &mut Walk<'_>,
    group: &Group,
    options: &PlannedOptions,
    term: u64,
    seen: &Seen,
    intent: &Intent,
) -> Result<CommandAnswer, Exit>
    ensures { Walks result walk.new.rest.now (reparents_from group.now options.now term seen.now intent.now walk.old.rest.now) }
{
    let PlannedOptions {
        new_primary,
        allow_cross_cell,
        timeout,
        ..
    } = options;
    let old = &intent.alias;
    let alias = successor(walk, group, *allow_cross_cell, seen, old, new_primary)?;
    let position = demotes(walk, intent)?;
    replaces(walk, group, *timeout, term, intent, &alias, position)
}

#[tactic(auto, unfolding(crate::specs::Planned::reparents_by))]
fn reparents_first(
    walk: &mut Walk<'_>,
    group: &Group,
    options: &PlannedOptions,
    term: u64,
    seen: &Seen,
) -> Result<CommandAnswer, Exit>
    ensures { Walks result walk.new.rest.now (reparents_by group.now options.now term seen.now None walk.old.rest.now) }
{
    let alias = first_primary(walk.alloc(), group, options, seen)?;
    let nothing = GtidSet::empty(walk.alloc());
    reparents_all(walk, group, options.timeout, term, &alias, nothing)
}

#[tactic(auto, unfolding(crate::specs::Planned::reparents_by))]
fn reparents_by(
    walk: &mut Walk<'_>,
    group: &Group,
    options: &PlannedOptions,
    term: u64,
    seen: &Seen,
) -> Result<CommandAnswer, Exit>
    ensures { Walks result walk.new.rest.now (reparents_by group.now options.now term seen.now seen.now.intent walk.old.rest.now) }
{
    let Some(intent) = &seen.intent else {
        return reparents_first(walk, group, options, term, seen);
    };
    if is_idle(&options.avoid, &intent.alias) {
        return Ok(CommandAnswer::NothingToDo {
            alias: intent.alias,
        });
    }
    reparents_from(walk, group, options, term, seen, intent)
}

/// The course of `PlannedReparentShard`.
#[tactic(auto, unfolding(crate::specs::Planned::planned_course))]
pub fn planned_course(
    walk: &mut Walk<'_>,
    group: &Group,
    options: &PlannedOptions,
) -> Result<CommandAnswer, Exit>
    ensures { Walks result walk.new.rest.now (planned_course group.now options.now walk.old.rest.now) }
{
    refusing(refusal_of_planned(group, options))?;
    let term = walk.take_lock()?;
    let seen = walk.read()?;
    refusing(refusal_by_seen(&options.expected, &options.new_primary, seen))?;
    reparents_by(walk, group, options, term, seen)
}
