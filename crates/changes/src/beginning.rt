//! How a command begins: its number, its actor, and what it finds at its start.

ghost use Rattle.std.specs.Prelude.{◌≡◌, ◌<◌, ◌≤◌, ◌+◌, ◌-◌, ◌^◌, ◌∷◌, ◌++◌, [], true, length, OnOk, OnErr, IfOk, IfSome, vec_len, vec_capacity};
ghost use Rattle.shard_calls.specs.Locks.{seen_of};
ghost use Rattle.shard_calls.specs.Begins.{begun_state, client_of, names_declared, number_of, shown_by, with_actor};
ghost use Rattle.shard_calls.specs.Table.{meets};
ghost use Rattle.shard_calls.specs.declared.event.Event.TheVariants as events;
ghost use Rattle.shard_state.specs.State.{data_of, config_in, seen};
ghost use Rattle.changes.specs.Few.{HaveFewWrites, AreFew};
ghost use Rattle.changes.specs.Makes.{Makes};

use crate::acts::{close, count_write, open, set_ended};
use crate::lock::seen_in;
use crate::tablets::show;
use shard_base::{Items, OutOfMemory};
use shard_calls::{ActorState, Command, CommandAnswer, CommandState, Opening, Reply, Shown};
use shard_names::Name;
use shard_state::{Fields, open_command, place_of};

/// The place of the actor with this name, or where the next one will stand.
fn client_of(actors: &[ActorState], name: &Name) -> u32
    requires { length actors.now ≤ 2 ^ 20 + 1 }
    ensures { result ≡ client_of actors.now name.now }
{
    match place_of(actors, name) {
        Some(at) => at as u32,
        None => actors.len() as u32,
    }
}

/// How many writes the actor has begun with this command.
fn number_of(actors: &[ActorState], name: &Name, command: &Command) -> u64
    requires { HaveFewWrites (2 ^ 64 - 2) actors.now }
    ensures { result ≡ number_of actors.now name.now command.now }
{
    let writes = match place_of(actors, name) {
        Some(at) => match actors.get(at) {
            Some(actor) => actor.writes,
            None => 0,
        },
        None => 0,
    };
    count_write(writes, command)
}

/// The actor with this name is one of the actors.
fn join(actors: &mut Vec<ActorState>, name: &Name)
    requires room { vec_len actors.old < vec_capacity actors.old }
    ensures { actors.new.items ≡ with_actor actors.old.items name.now }
{
    if place_of(actors, name).is_none() {
        actors.push_reserved(ActorState {
            name: *name,
            pending: None,
            writes: 0,
        });
    }
}

/// The number of the next command.
fn next_number(commands: &[CommandState]) -> u64
    requires { length commands.now < 2 ^ 64 - 1 }
    ensures { result ≡ length commands.now + 1 }
{
    commands.len() as u64 + 1
}

/// What a `show` is to show.
fn shown_by(fields: &Fields, command: &Command) -> Result<Option<Shown>, OutOfMemory>
    requires named { names_declared (config_in (data_of fields.now)) command.now ≡ true }
    ensures { IfOk result (λ shown. shown ≡ shown_by (seen (data_of fields.now)) command.now) }
{
    match command {
        Command::Planned { .. } => Ok(None),
        Command::Emergency { .. } => Ok(None),
        Command::External { .. } => Ok(None),
        Command::Vtorc => Ok(None),
        Command::Write { .. } => Ok(None),
        Command::Show { alias } => {
            let shown = show(&fields.managers, alias)?;
            Ok(Some(shown))
        }
        Command::GetShard { .. } => Ok(None),
        Command::GetTablets { .. } => Ok(None),
    }
}

/// What stands where the command begins.
fn opening_of(fields: &Fields, command: &Command) -> Result<Opening, OutOfMemory>
    requires named { names_declared (config_in (data_of fields.now)) command.now ≡ true }
    ensures { IfOk result (λ opening. opening ≡ record { seen = seen_of fields.now.topo.topology; shown = shown_by (seen (data_of fields.now)) command.now }) }
{
    let shown = shown_by(fields, command)?;
    let seen = seen_in(fields.alloc, &fields.topo)?;
    Ok(Opening { seen, shown })
}

/// A command that has just begun.
fn begun_state(fields: &Fields, name: &Name, command: Command, opening: Opening) -> CommandState
    requires few { AreFew (2 ^ 20) (seen (data_of fields.now)) }
    requires opening { opening ≡ record { seen = seen_of fields.now.topo.topology; shown = shown_by (seen (data_of fields.now)) command } }
    ensures { result ≡ begun_state (seen (data_of fields.now)) name.now command }
{
    let number = number_of(&fields.actors, name, &command);
    CommandState {
        command,
        actor: *name,
        client: client_of(&fields.actors, name),
        number,
        opening,
        term: None,
        released: false,
        ended: false,
        wrote: None,
        acts: Items::new(fields.alloc),
    }
}

fn push_state(commands: &mut Vec<CommandState>, state: CommandState)
    requires room { vec_len commands.old < vec_capacity commands.old }
    ensures { commands.new.items ≡ commands.old.items ++ state ∷ [] }
{
    commands.push_reserved(state);
}

/// Opens a command.
pub(crate) fn begin(
    fields: &mut Fields,
    name: &Name,
    command: &Command,
) -> Result<Reply, OutOfMemory>
    requires met { meets (config_in (data_of fields.old)) (seen (data_of fields.old)) (events.Begin name.now command.now) ≡ true }
    requires few { AreFew (2 ^ 20) (seen (data_of fields.old)) }
    ensures made { IfOk result (λ reply. Makes (data_of fields.old) (data_of fields.new) (events.Begin name.now command.now) reply) }
    ensures err { OnErr result (data_of fields.new ≡ data_of fields.old) }
{
    let opening = opening_of(fields, command)?;
    let number = next_number(&fields.commands);
    let kept = command.copy()?;
    let state = begun_state(fields, name, kept, opening);
    let client = state.client as usize;
    fields.actors.reserve(1)?;
    fields.commands.reserve(1)?;
    push_state(&mut fields.commands, state);
    join(&mut fields.actors, name);
    open(&mut fields.actors, client, number, command);
    Ok(Reply::Begun { command: number })
}

/// Closes the command. It takes no memory.
pub(crate) fn end(fields: &mut Fields, command: u64, answer: &CommandAnswer) -> Reply
    ensures { Makes (data_of fields.old) (data_of fields.new) (events.End command answer.now) result }
{
    let _said = answer;
    let client = match open_command(&fields.commands, command) {
        Some(state) => state.client,
        None => return Reply::Ok,
    };
    set_ended(&mut fields.commands, command);
    close(&mut fields.actors, client as usize);
    Reply::Ok
}
