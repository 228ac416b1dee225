//! The courses of a write and of a show.

ghost use Rattle.std.specs.Prelude.{◌≡◌, Ok, Some};
ghost use Rattle.courses.specs.Walks.{Walks, UnlessStarved};
ghost use Rattle.shard_calls.specs.Refusals.{or_else, recorded_alias};
ghost use Rattle.courses.specs.Writing.{told_by, written_by, writes_at, write_course, shown_by, show_course};

use crate::Exit;
use crate::walk::Walk;
use gtid_sets::GtidSet;
use refusals::recorded_alias;
use shard_calls::{CommandAnswer, Standing, Transaction};
use shard_names::Alias;
use topo_lock::Record;

fn told_by(alias: &Alias, written: Transaction, committed: bool) -> CommandAnswer
    ensures { result ≡ told_by alias.now written committed }
{
    let Transaction { gtid, term } = written;
    let alias = *alias;
    if committed {
        return CommandAnswer::Committed { gtid, alias, term };
    }
    CommandAnswer::Unknown { gtid, alias, term }
}

/// What comes of a write that the tablet took.
fn waits_to_be_told(
    walk: &mut Walk<'_>,
    alias: &Alias,
    written: Transaction,
) -> Result<CommandAnswer, Exit>
    ensures { Walks result walk.new.rest.now (written_by alias.now (Ok written) walk.old.rest.now) }
{
    let committed = walk.tell()?;
    Ok(told_by(alias, written, committed))
}

fn writes_at(walk: &mut Walk<'_>, alias: &Alias) -> Result<CommandAnswer, Exit>
    ensures { Walks result walk.new.rest.now (writes_at (Some alias.now) walk.old.rest.now) }
{
    match walk.write(alias)? {
        Ok(written) => waits_to_be_told(walk, alias, written),
        Err(stand) => Ok(CommandAnswer::NotPrimary {
            alias: *alias,
            stand,
        }),
    }
}

fn place_of(to: &Option<Alias>, recorded: &Option<Record>) -> Option<Alias>
    ensures { result ≡ or_else to.now (recorded_alias recorded.now) }
{
    match to {
        Some(alias) => Some(*alias),
        None => recorded_alias(recorded),
    }
}

/// The course of a write at this tablet, or else at the one that was recorded right after it began.
#[tactic(auto, unfolding(crate::specs::Writing::write_course))]
pub fn write_course(
    walk: &mut Walk<'_>,
    to: &Option<Alias>,
    recorded: &Option<Record>,
) -> Result<CommandAnswer, Exit>
    ensures { Walks result walk.new.rest.now (write_course to.now recorded.now walk.old.rest.now) }
{
    match place_of(to, recorded) {
        Some(alias) => writes_at(walk, &alias),
        None => Ok(CommandAnswer::NoPrimaryRecorded),
    }
}

/// What a show ends with, which shows what stood right after it began.
fn shown(alias: &Alias, stand: Standing, position: &GtidSet) -> Result<CommandAnswer, Exit>
    ensures { UnlessStarved result (Ok (shown_by alias.now stand position.now)) }
{
    let position = position.copy()?;
    Ok(CommandAnswer::Shown {
        alias: *alias,
        stand,
        position,
    })
}

/// The course of a show.
#[tactic(auto, unfolding(crate::specs::Writing::show_course))]
pub fn show_course(
    walk: &mut Walk<'_>,
    alias: &Alias,
    stand: Standing,
    position: &GtidSet,
) -> Result<CommandAnswer, Exit>
    ensures { Walks result walk.new.rest.now (show_course alias.now stand position.now walk.old.rest.now) }
{
    let _ahead = walk.alloc();
    shown(alias, stand, position)
}
