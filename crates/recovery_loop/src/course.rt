//! The course of every command.

ghost use Rattle.std.specs.Prelude.{◌≡◌, IfOk};
ghost use Rattle.courses.specs.Course.{demand};
ghost use Rattle.courses.specs.Walks.{Walks};
ghost use Rattle.recovery_loop.specs.Course.{course_of, shows};

use crate::watch::watch_course;
use analysis::rows_of;
use courses::{
    Demand, Exit, Walk, demand_by, emergency_course, external_course, planned_course, show_course,
    write_course,
};
use shard_base::OutOfMemory;
use shard_calls::{
    Command, CommandAnswer, Deed, EmergencyOptions, Group, Opening, PlannedOptions, Shown,
};
use shard_names::Alias;
use std::alloc::Global;

/// A show shows what its opening has; where that has nothing to show, nothing that was done is of its course.
fn shows(walk: &mut Walk<'_>, alias: &Alias, shown: &Option<Shown>) -> Result<CommandAnswer, Exit>
    ensures { Walks result walk.new.rest.now (shows alias.now shown.now walk.old.rest.now) }
{
    match shown {
        Some(shown) => show_course(walk, alias, shown.stand.standing(), &shown.position),
        None => Err(Exit::Strays),
    }
}

/// How far the command comes along what it did, by the course of its kind. `opening` is what stood right after it began.
#[tactic(auto, unfolding(crate::specs::Course::course_of))]
pub fn play(
    walk: &mut Walk<'_>,
    group: &Group,
    command: &Command,
    opening: &Opening,
) -> Result<CommandAnswer, Exit>
    ensures { Walks result walk.new.rest.now (course_of group.now command.now opening.now walk.old.rest.now) }
{
    match command {
        Command::Planned { .. } => match PlannedOptions::of(command) {
            Some(options) => planned_course(walk, group, &options),
            None => unreachable!(),
        },
        Command::Emergency { .. } => match EmergencyOptions::of(command)? {
            Some(options) => emergency_course(walk, group, &options),
            None => unreachable!(),
        },
        Command::External { alias } => external_course(walk, group, alias),
        Command::Vtorc => watch_course(walk, group, &opening.seen),
        Command::Write { to } => write_course(walk, to, &opening.seen.recorded),
        Command::Show { alias } => shows(walk, alias, &opening.shown),
        Command::GetShard { shard } => Ok(CommandAnswer::Shard {
            shard: *shard,
            recorded: opening.seen.recorded,
        }),
        Command::GetTablets { .. } => {
            let rows = rows_of(walk.alloc(), group, &opening.seen)?;
            Ok(CommandAnswer::Tablets { rows })
        }
    }
}

/// What the command is to do next, by what it did and what its calls came to. `opening` is what stood right after it began.
pub fn demand(
    alloc: Global,
    group: &Group,
    command: &Command,
    opening: &Opening,
    span: &[Deed],
) -> Result<Demand, OutOfMemory>
    ensures { IfOk result (λ d. d ≡ demand (course_of group.now command.now opening.now) span.now) }
{
    let mut walk = Walk::new(alloc, span);
    demand_by(play(&mut walk, group, command, opening))
}
