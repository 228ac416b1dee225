//! The course of `EmergencyReparentShard`.

ghost use Rattle.std.specs.Prelude.{◌≡◌, IfOk};
ghost use Rattle.gtid_sets.specs.Position.{covers};
ghost use Rattle.shard_calls.specs.Rescuing.{position_of};
ghost use Rattle.courses.specs.Walks.{Walks, ok_copied};
ghost use Rattle.courses.specs.Emergency.{stops_all, is_fed, has_all, others_of, takes_over, rescues_by, rescues, emergency_course};

use crate::Exit;
use crate::planned::{following, holding};
use crate::promoting::reparents;
use crate::walk::{Walk, or_refusing, refusing};
use gtid_sets::{GtidSet, Held, covers};
use refusals::{
    first_stale, heeded, helds, push_if, refusal_by_seen, refusal_of_emergency,
    refusal_of_unrevoked, rescuer, winner_of,
};
use shard_base::{Items, OutOfMemory};
use shard_calls::{Call, CommandAnswer, Deed, EmergencyOptions, Group, Seen};
use shard_names::Alias;
use std::alloc::Global;

/// Each tablet that is not to be left out promises the term. What came of it is given, if those that stopped revoke every older primary.
#[tactic(auto, unfolding(crate::specs::Emergency::stops_all))]
fn stops_all<'a>(walk: &mut Walk<'a>, group: &Group, ignored: &[Alias]) -> Result<&'a [Deed], Exit>
    ensures { Walks (ok_copied result) walk.new.rest.now (stops_all group.now ignored.now walk.old.rest.now) }
{
    let aliases = heeded(walk.alloc(), group, ignored)?;
    let stopped = walk.call_all(aliases.as_slice(), Call::Stop)?;
    refusing(first_stale(stopped))?;
    let unrevoked = refusal_of_unrevoked(walk.alloc(), group, ignored, stopped)?;
    refusing(unrevoked)?;
    Ok(stopped)
}

/// The tablet comes to have all that the winner has, which sends it its log.
#[tactic(auto, unfolding(crate::specs::Emergency::is_fed))]
fn is_fed(
    walk: &mut Walk<'_>,
    timeout: u64,
    term: u64,
    winner: &Held,
    alias: &Alias,
) -> Result<(), Exit>
    ensures { Walks result walk.new.rest.now (is_fed timeout term winner.now alias.now walk.old.rest.now) }
{
    walk.need(&winner.alias, Call::Feed)?;
    let join = Call::SetSource {
        source: winner.alias,
        stand: term,
        position: winner.position.copy()?,
    };
    let followed = walk.need(alias, join)?;
    following(followed)?;
    let wait = Call::WaitFor {
        position: winner.position.copy()?,
        until: timeout,
    };
    let held = walk.need(alias, wait)?;
    holding(held)
}

/// Whether the tablet, by what those have that stopped, has all of the position.
fn has_position(alloc: Global, stopped: &[Held], alias: &Alias, position: &GtidSet) -> bool
    ensures { result ≡ covers (position_of stopped.now alias.now) position.now }
{
    let mut left = stopped;
    while let Some((held, more)) = left.split_first() {
        if held.alias == *alias {
            return covers(&held.position, position);
        }
        left = more;
    }
    covers(&GtidSet::empty(alloc), position)
}

#[tactic(auto, unfolding(crate::specs::Emergency::has_all))]
fn has_all(
    walk: &mut Walk<'_>,
    timeout: u64,
    term: u64,
    winner: &Held,
    alias: &Alias,
    stopped: &[Held],
) -> Result<(), Exit>
    ensures { Walks result walk.new.rest.now (has_all timeout term winner.now alias.now (position_of stopped.now alias.now) walk.old.rest.now) }
{
    if has_position(walk.alloc(), stopped, alias, &winner.position) {
        return Ok(());
    }
    is_fed(walk, timeout, term, winner, alias)
}

/// The others that stopped.
fn others_of(alloc: Global, alias: &Alias, stopped: &[Held]) -> Result<Items<Alias>, OutOfMemory>
    ensures { IfOk result (λ others. others ≡ others_of alias.now stopped.now) }
{
    let mut others = Items::new(alloc);
    for held in stopped {
        push_if(&mut others, held.alias != *alias, &held.alias)?;
    }
    Ok(others)
}

/// The tablet takes over what the winner has, and those that stopped are to join it.
#[tactic(auto, unfolding(crate::specs::Emergency::takes_over))]
fn takes_over(
    walk: &mut Walk<'_>,
    timeout: u64,
    term: u64,
    deeds: &[Deed],
    winner: &Held,
    alias: &Alias,
) -> Result<CommandAnswer, Exit>
    ensures { Walks result walk.new.rest.now (takes_over timeout term deeds.now winner.now alias.now walk.old.rest.now) }
{
    let stopped = helds(walk.alloc(), deeds)?;
    let others = others_of(walk.alloc(), alias, stopped.as_slice())?;
    has_all(walk, timeout, term, winner, alias, stopped.as_slice())?;
    let position = winner.position.copy()?;
    reparents(walk, timeout, others.as_slice(), term, alias, position)
}

/// By what came of the Stops, the tablet that is ahead of all is taken over from.
#[tactic(auto, unfolding(crate::specs::Emergency::rescues_by))]
fn rescues_by(
    walk: &mut Walk<'_>,
    group: &Group,
    options: &EmergencyOptions,
    term: u64,
    seen: &Seen,
    deeds: &[Deed],
) -> Result<CommandAnswer, Exit>
    ensures { Walks result walk.new.rest.now (rescues_by group.now options.now term seen.now deeds.now walk.old.rest.now) }
{
    let alloc = walk.alloc();
    let found = winner_of(alloc, group, options, seen, deeds)?;
    let winner = or_refusing(found)?;
    let new_primary = &options.new_primary;
    let chosen = rescuer(alloc, group, options, seen, deeds, &winner, new_primary)?;
    let alias = or_refusing(chosen)?;
    takes_over(walk, options.timeout, term, deeds, &winner, &alias)
}

#[tactic(auto, unfolding(crate::specs::Emergency::rescues))]
fn rescues(
    walk: &mut Walk<'_>,
    group: &Group,
    options: &EmergencyOptions,
    term: u64,
    seen: &Seen,
) -> Result<CommandAnswer, Exit>
    ensures { Walks result walk.new.rest.now (rescues group.now options.now term seen.now walk.old.rest.now) }
{
    let deeds = stops_all(walk, group, options.ignored.as_slice())?;
    rescues_by(walk, group, options, term, seen, deeds)
}

/// The course of `EmergencyReparentShard`.
#[tactic(auto, unfolding(crate::specs::Emergency::emergency_course))]
pub fn emergency_course(
    walk: &mut Walk<'_>,
    group: &Group,
    options: &EmergencyOptions,
) -> Result<CommandAnswer, Exit>
    ensures { Walks result walk.new.rest.now (emergency_course group.now options.now walk.old.rest.now) }
{
    refusing(refusal_of_emergency(group, options))?;
    let term = walk.take_lock()?;
    let seen = walk.read()?;
    refusing(refusal_by_seen(&options.expected, &options.new_primary, seen))?;
    rescues(walk, group, options, term, seen)
}
