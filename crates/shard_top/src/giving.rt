//! What actors begin: the commands of lines.

ghost use Rattle.std.specs.Prelude.{◌≡◌, ◌<◌, ◌-◌, ◌^◌, length, IfOk, IfErr};
ghost use Rattle.std.specs.Option.{option_copied};
ghost use Rattle.shard_calls.specs.World.{main_name, numbered};
ghost use Rattle.shard_calls.specs.Table.{meets};
ghost use Rattle.shard_calls.specs.declared.event.Event.TheVariants as events;
ghost use Rattle.shard_state.specs.State.{data_of, config_in};
ghost use Rattle.shard_core.specs.Kept.{world_of};
ghost use Rattle.shard_top.specs.Played.{asked, gives, command_of, played_at, gives_by, IsGoOfNone, Lacks};

use crate::player::{Go, Task, Wanting};
use shard_base::OutOfMemory;
use shard_calls::{Command, Event};
use shard_core::Shard;
use shard_names::Name;
use shard_script::Action;
use shard_state::{Fields, is_in_time, names_declared};

/// The actor who gives every command that no name starts.
fn main_name() -> Name
    ensures { result ≡ main_name }
{
    match Name::from_slice(b"main") {
        Some(name) => name,
        None => unreachable!(),
    }
}

fn may_begin_by(shard: &Shard, fields: &Fields, name: &Name, command: &Command) -> bool
    requires { config_in (data_of fields.now) ≡ shard.now.config }
    ensures { result ≡ meets shard.now.config (world_of shard.now) (events.Begin name.now command.now) }
{
    shard.open_of(name).is_none() && is_in_time(command) && names_declared(fields, command)
}

/// Whether the actor of this name may begin the command. It takes no memory.
fn may_begin(shard: &Shard, name: &Name, command: &Command) -> bool
    ensures { result ≡ meets shard.now.config (world_of shard.now) (events.Begin name.now command.now) }
{
    may_begin_by(shard, shard.fields(), name, command)
}

/// The actor of this name begins the command, which sets this task. Where they may not, it is left out.
pub(crate) fn begins(
    shard: &Shard,
    name: &Name,
    command: &Command,
    task: &Task,
) -> Result<Go, Wanting>
    ensures goes { IfOk result (λ go. go ≡ asked shard.now.config (world_of shard.now) (events.Begin name.now command.now) task.now) }
    ensures wants { IfErr result (λ want. Lacks (world_of shard.now) (IsGoOfNone (asked shard.now.config (world_of shard.now) (events.Begin name.now command.now) task.now)) want.command) }
{
    if !may_begin(shard, name, command) {
        return Ok(Go::Finished);
    }
    match command.copy() {
        Ok(command) => {
            let actor = *name;
            let event = Event::Begin { actor, command };
            Ok(Go::Makes { event, task: *task })
        }
        Err(OutOfMemory) => Err(Wanting { command: None }),
    }
}

/// `main` gives the command so many times.
pub(crate) fn gives(shard: &Shard, command: &Command, count: u64) -> Result<Go, Wanting>
    requires few { length (world_of shard.now).commands < 2 ^ 64 - 1 }
    ensures goes { IfOk result (λ go. go ≡ gives shard.now.config (world_of shard.now) command.now count) }
    ensures wants { IfErr result (λ want. Lacks (world_of shard.now) (IsGoOfNone (gives shard.now.config (world_of shard.now) command.now count)) want.command) }
{
    if count == 0 {
        return Ok(Go::Finished);
    }
    let task = Task::Gives {
        command: shard.begun() + 1,
        again: count - 1,
    };
    begins(shard, &main_name(), command, &task)
}

fn command_of(line: &Action) -> Option<&Command>
    ensures { option_copied result ≡ command_of line.now }
{
    match line {
        Action::Play { command, .. } => Some(command),
        _ => None,
    }
}

/// The line of this number, from 1.
fn numbered(lines: &[Action], number: u64) -> Option<&Action>
    ensures { option_copied result ≡ numbered lines.now number }
{
    let at = number.checked_sub(1)?;
    lines.get(at as usize)
}

/// The command of the line before this place.
fn played_at(lines: &[Action], line: u64) -> Option<&Command>
    ensures { option_copied result ≡ played_at lines.now line }
{
    match numbered(lines, line) {
        Some(before) => command_of(before),
        None => None,
    }
}

/// `main` gives the command of the line before this place so many times.
pub(crate) fn gives_by(
    shard: &Shard,
    lines: &[Action],
    line: u64,
    again: u64,
) -> Result<Go, Wanting>
    requires few { length (world_of shard.now).commands < 2 ^ 64 - 1 }
    ensures goes { IfOk result (λ go. go ≡ gives_by shard.now.config (world_of shard.now) (played_at lines.now line) again) }
    ensures wants { IfErr result (λ want. Lacks (world_of shard.now) (IsGoOfNone (gives_by shard.now.config (world_of shard.now) (played_at lines.now line) again)) want.command) }
{
    match played_at(lines, line) {
        Some(command) => gives(shard, command, again),
        None => Ok(Go::Finished),
    }
}
