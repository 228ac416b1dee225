//! Who follows a primary.

ghost use Rattle.std.specs.Prelude.{◌≡◌, None};
ghost use Rattle.courses.specs.Walks.{Walks, UnlessStarved};
ghost use Rattle.courses.specs.Planned.{first_primary, successor};

use crate::Exit;
use crate::walk::{Walk, or_refusing, refusing};
use refusals::{candidates, first_of, follower, refusal_of_crossing};
use shard_calls::{Call, Group, PlannedOptions, Seen};
use shard_names::Alias;
use std::alloc::Global;

/// The first primary of the shard.
pub(crate) fn first_primary(
    alloc: Global,
    group: &Group,
    options: &PlannedOptions,
    seen: &Seen,
) -> Result<Alias, Exit>
    ensures { UnlessStarved result (first_primary group.now options.now seen.now options.now.new_primary) }
{
    match &options.new_primary {
        Some(alias) => Ok(*alias),
        None => or_refusing(first_of(alloc, group, seen, &options.avoid)?),
    }
}

/// Of the tablets that may follow, the one that has most.
#[tactic(auto, unfolding(crate::specs::Planned::successor))]
fn best_follower(
    walk: &mut Walk<'_>,
    group: &Group,
    allowed: bool,
    seen: &Seen,
    old: &Alias,
) -> Result<Alias, Exit>
    ensures { Walks result walk.new.rest.now (successor group.now allowed seen.now old.now None walk.old.rest.now) }
{
    let aliases = candidates(walk.alloc(), group, allowed, seen, old)?;
    let deeds = walk.call_all(aliases.as_slice(), Call::Status)?;
    let follower = follower(walk.alloc(), group, allowed, seen, old, deeds)?;
    or_refusing(follower)
}

/// Who follows the old primary: the given tablet, or of its replicas the one that has most.
#[tactic(auto, unfolding(crate::specs::Planned::successor))]
pub(crate) fn successor(
    walk: &mut Walk<'_>,
    group: &Group,
    allowed: bool,
    seen: &Seen,
    old: &Alias,
    new_primary: &Option<Alias>,
) -> Result<Alias, Exit>
    ensures { Walks result walk.new.rest.now (successor group.now allowed seen.now old.now new_primary.now walk.old.rest.now) }
{
    match new_primary {
        Some(alias) => {
            refusing(refusal_of_crossing(allowed, old, alias))?;
            Ok(*alias)
        }
        None => best_follower(walk, group, allowed, seen, old),
    }
}
