//! What a command is noted to have done: its acts, the term that it took, and what it read.

ghost use Rattle.std.specs.Prelude.{◌≡◌, ◌<◌, ◌≤◌, ◌+◌, ◌-◌, ◌^◌, ◌∷◌, ◌++◌, [], true, length, MatchOption, OnOk, OnErr, IfOk, Some, None};
ghost use Rattle.shard_calls.specs.World.{numbered, changed, changed_at, with_act};
ghost use Rattle.shard_calls.specs.Locks.{as_released, with_act_if, with_taken};
ghost use Rattle.shard_calls.specs.Begins.{closes, opens, writes_by};
ghost use Rattle.changes.specs.Few.{HaveFewWrites};
ghost use Rattle.changes.specs.Places.{without_act};

use gtid_sets::Gtid;
use shard_base::{Items, OutOfMemory};
use shard_calls::{Act, ActorState, Command, CommandState, Seen, Standing, Wrote};
use topo_lock::{Intent, LockTaken, Record};

/// The place of a command's number.
fn place_of_number(commands: &[CommandState], command: u64) -> Option<usize>
    ensures { MatchOption result (numbered commands.now command ≡ None) (λ k. (k < length commands.now) × (command ≡ k + 1)) }
{
    let at = command.checked_sub(1)? as usize;
    if at < commands.len() { Some(at) } else { None }
}

fn push_act(acts: &mut Items<Act>, new: Act) -> Result<(), OutOfMemory>
    ensures ok { OnOk result (acts.new ≡ acts.old ++ new ∷ []) }
    ensures err { OnErr result (acts.new ≡ acts.old) }
{
    // The proof's generator wants each enum inside an act named here.
    let _seen: Option<&Seen> = None;
    let _record: Option<&Record> = None;
    let _intent: Option<&Intent> = None;
    let _standing: Option<&Standing> = None;
    let _taken: Option<&Result<u64, LockTaken>> = None;
    let _read: Option<&Result<Seen, u64>> = None;
    let _set: Option<&Result<(), u64>> = None;
    let _written: Option<&Result<Gtid, Standing>> = None;
    acts.push(new)
}

fn act_in(state: &mut CommandState, new: Act) -> Result<(), OutOfMemory>
    ensures ok { OnOk result (state.new ≡ with_act new state.old) }
    ensures err { OnErr result (state.new ≡ state.old) }
{
    push_act(&mut state.acts, new)
}

/// The command has done this.
pub(crate) fn act(
    commands: &mut Vec<CommandState>,
    command: u64,
    new: Act,
) -> Result<(), OutOfMemory>
    ensures ok { OnOk result (commands.new.items ≡ changed_at commands.old.items command (with_act new)) }
    ensures err { OnErr result (commands.new.items ≡ commands.old.items) }
{
    match place_of_number(commands, command) {
        Some(at) => act_in(&mut commands[at], new),
        None => Ok(()),
    }
}

/// The command has done this, if it has done anything.
pub(crate) fn act_if(
    commands: &mut Vec<CommandState>,
    command: u64,
    new: Option<Act>,
) -> Result<(), OutOfMemory>
    ensures ok { OnOk result (commands.new.items ≡ changed_at commands.old.items command (with_act_if new)) }
    ensures err { OnErr result (commands.new.items ≡ commands.old.items) }
{
    match new {
        Some(new) => act(commands, command, new),
        None => Ok(()),
    }
}

fn forget_in(state: &mut CommandState)
    ensures { state.new ≡ without_act state.old }
{
    let count = state.acts.len();
    state.acts.truncate(count.saturating_sub(1));
}

/// The command has not done what it did last. It takes no memory.
pub(crate) fn forget(commands: &mut Vec<CommandState>, command: u64)
    ensures { commands.new.items ≡ changed_at commands.old.items command without_act }
{
    if let Some(at) = place_of_number(commands, command) {
        forget_in(&mut commands[at]);
    }
}

fn take_in(state: &mut CommandState, taken: &Result<u64, LockTaken>) -> Result<(), OutOfMemory>
    ensures ok { OnOk result (state.new ≡ with_taken taken.now state.old) }
    ensures err { OnErr result (state.new ≡ state.old) }
{
    act_in(state, Act::Took { reply: *taken })?;
    if let Ok(term) = taken {
        state.term = Some(*term);
    }
    Ok(())
}

/// The command asked for the lock, and was answered this.
pub(crate) fn note_taken(
    commands: &mut Vec<CommandState>,
    command: u64,
    taken: &Result<u64, LockTaken>,
) -> Result<(), OutOfMemory>
    ensures ok { OnOk result (commands.new.items ≡ changed_at commands.old.items command (with_taken taken.now)) }
    ensures err { OnErr result (commands.new.items ≡ commands.old.items) }
{
    match place_of_number(commands, command) {
        Some(at) => take_in(&mut commands[at], taken),
        None => Ok(()),
    }
}

fn note_in(state: &mut CommandState, wrote: Wrote)
    ensures { state.new ≡ record state.old { wrote = Some wrote } }
{
    state.wrote = Some(wrote);
}

/// The command has written this.
pub(crate) fn note_written(commands: &mut Vec<CommandState>, command: u64, wrote: Wrote)
    ensures { commands.new.items ≡ changed_at commands.old.items command (λ s. record s { wrote = Some wrote }) }
{
    if let Some(at) = place_of_number(commands, command) {
        note_in(&mut commands[at], wrote);
    }
}

fn release_in(state: &mut CommandState)
    ensures { state.new ≡ as_released state.old }
{
    state.released = true;
}

/// The command has made its Release.
pub(crate) fn set_released(commands: &mut Vec<CommandState>, command: u64)
    ensures { commands.new.items ≡ changed_at commands.old.items command as_released }
{
    if let Some(at) = place_of_number(commands, command) {
        release_in(&mut commands[at]);
    }
}

fn end_in(state: &mut CommandState)
    ensures { state.new ≡ record state.old { ended = true } }
{
    state.ended = true;
}

/// The command has ended.
pub(crate) fn set_ended(commands: &mut Vec<CommandState>, command: u64)
    ensures { commands.new.items ≡ changed_at commands.old.items command (λ s. record s { ended = true }) }
{
    if let Some(at) = place_of_number(commands, command) {
        end_in(&mut commands[at]);
    }
}

fn close_in(actor: &mut ActorState)
    ensures { actor.new ≡ closes actor.old }
{
    actor.pending = None;
}

/// The actor at this place has no open command any more.
pub(crate) fn close(actors: &mut Vec<ActorState>, at: usize)
    ensures { actors.new.items ≡ changed actors.old.items at closes }
{
    if at < actors.len() {
        close_in(&mut actors[at]);
    }
}

pub(crate) fn count_write(writes: u64, command: &Command) -> u64
    requires { writes < 2 ^ 64 - 1 }
    ensures { result ≡ writes + writes_by command.now }
{
    match command {
        Command::Planned { .. } => writes,
        Command::Emergency { .. } => writes,
        Command::External { .. } => writes,
        Command::Vtorc => writes,
        Command::Write { .. } => writes + 1,
        Command::Show { .. } => writes,
        Command::GetShard { .. } => writes,
        Command::GetTablets { .. } => writes,
    }
}

fn open_in(actor: &mut ActorState, number: u64, command: &Command)
    requires { actor.old.writes < 2 ^ 64 - 1 }
    ensures { actor.new ≡ opens number command.now actor.old }
{
    actor.pending = Some(number);
    actor.writes = count_write(actor.writes, command);
}

/// The actor at this place has the command of this number open.
pub(crate) fn open(actors: &mut Vec<ActorState>, at: usize, number: u64, command: &Command)
    requires { HaveFewWrites (2 ^ 64 - 2) actors.old.items }
    ensures { actors.new.items ≡ changed actors.old.items at (opens number command.now) }
{
    if at < actors.len() {
        open_in(&mut actors[at], number, command);
    }
}
