//! The points at the end of every reparent.

ghost use Rattle.std.specs.Prelude.{◌≡◌, IfOk};
ghost use Rattle.courses.specs.Walks.{Walks, UnlessStarved};
ghost use Rattle.courses.specs.Promoting.{promoted_position, told_so, others_than, established, promotes, reparents};

use crate::Exit;
use crate::walk::Walk;
use gtid_sets::GtidSet;
use refusals::{not_joined, push_if};
use shard_base::{Items, OutOfMemory};
use shard_calls::{Answer, Call, CommandAnswer, Group};
use shard_names::Alias;
use std::alloc::Global;

/// What a tablet that was promoted has.
fn promoted_position(answer: &Answer) -> Result<GtidSet, Exit>
    ensures { UnlessStarved result (promoted_position answer.now) }
{
    match answer {
        Answer::Promoted { position } => Ok(position.copy()?),
        _ => Err(Exit::Strays),
    }
}

/// That its promotion counts as committed.
fn told_so(answer: &Answer) -> Result<(), Exit>
    ensures { result ≡ told_so answer.now }
{
    match answer {
        Answer::Told => Ok(()),
        _ => Err(Exit::Strays),
    }
}

/// All other tablets.
pub(crate) fn others_than(
    alloc: Global,
    group: &Group,
    alias: &Alias,
) -> Result<Items<Alias>, OutOfMemory>
    ensures { IfOk result (λ others. others ≡ others_than group.now alias.now) }
{
    let mut others = Items::new(alloc);
    for tablet in group.tablets.as_slice() {
        push_if(&mut others, tablet.alias != *alias, &tablet.alias)?;
    }
    Ok(others)
}

/// The tablet, promoted in this term, is recorded, the others join it, and the promotion has to count as committed.
#[tactic(auto, unfolding(crate::specs::Promoting::established))]
pub(crate) fn established(
    walk: &mut Walk<'_>,
    timeout: u64,
    others: &[Alias],
    term: u64,
    alias: &Alias,
    position: GtidSet,
) -> Result<CommandAnswer, Exit>
    ensures { Walks result walk.new.rest.now (established timeout others.now term alias.now position walk.old.rest.now) }
{
    walk.record(alias)?;
    let join = Call::SetSource {
        source: *alias,
        stand: term,
        position,
    };
    let joined = walk.call_all(others, join)?;
    let answer = walk.need(alias, Call::WaitTold { until: timeout })?;
    told_so(answer)?;
    let left = not_joined(walk.alloc(), joined)?;
    Ok(CommandAnswer::Promoted {
        alias: *alias,
        term,
        left,
    })
}

/// The tablet is to be promoted, if it covers the position, and tells its own.
#[tactic(auto, unfolding(crate::specs::Promoting::promotes))]
pub(crate) fn promotes(
    walk: &mut Walk<'_>,
    alias: &Alias,
    position: GtidSet,
) -> Result<GtidSet, Exit>
    ensures { Walks result walk.new.rest.now (promotes alias.now position walk.old.rest.now) }
{
    walk.intend(alias)?;
    let answer = walk.need(alias, Call::Promote { position })?;
    promoted_position(answer)
}

/// The tablet is promoted in this term, if it covers the position.
#[tactic(auto, unfolding(crate::specs::Promoting::reparents))]
pub(crate) fn reparents(
    walk: &mut Walk<'_>,
    timeout: u64,
    others: &[Alias],
    term: u64,
    alias: &Alias,
    position: GtidSet,
) -> Result<CommandAnswer, Exit>
    ensures { Walks result walk.new.rest.now (reparents timeout others.now term alias.now position walk.old.rest.now) }
{
    let position = promotes(walk, alias, position)?;
    established(walk, timeout, others, term, alias, position)
}
