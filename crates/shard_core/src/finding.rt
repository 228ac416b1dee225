//! What the condition of a row looks for, where the row then goes by it.

ghost use Rattle.std.specs.Prelude.{◌≡◌, Some, None, if◌then◌else◌};
ghost use Rattle.std.specs.Option.{option_copied};
ghost use Rattle.shard_base.specs.Options.{only_if};
ghost use Rattle.shard_calls.specs.declared.event.Reply.TheVariants as replies;
ghost use Rattle.shard_calls.specs.Stands.{is_primary_of};
ghost use Rattle.shard_calls.specs.Tablets.{is_told};
ghost use Rattle.shard_calls.specs.World.{numbered};
ghost use Rattle.shard_calls.specs.Writes.{tell_reply, tell_of};
ghost use Rattle.tablet_manager.specs.Managed.{state_of};
ghost use Rattle.shard_state.specs.State.{seen, data_of, AreOfGroup};
ghost use Rattle.arrivals.specs.Addressed.{KnowsTablets, AreAddressed};
ghost use Rattle.changes.specs.Makes.{IsFound};

use arrivals::{offer_to, why_given_up};
use changes::Found;
use shard_calls::{CommandState, Event, Reply, Wrote};
use shard_state::{Fields, manager_of};
use tablet_manager::Manager;

/// What the tablet says of an entry that it wrote: whether it counts as committed, if that can be said.
fn said_of(manager: &Manager, wrote: &Wrote) -> Option<Reply>
    ensures { result ≡ if is_primary_of manager.now.stand wrote.now.term then only_if (is_told manager.now.group manager.now.me (state_of manager.now) wrote.now.index) replies.Told else Some replies.Gone }
{
    if !manager.stand().is_primary_of(wrote.term) {
        return Some(Reply::Gone);
    }
    if manager.is_told(wrote.index) {
        return Some(Reply::Told);
    }
    None
}

/// Whether an entry counts as committed at the tablet that wrote it, if that can be said.
fn tell_reply(fields: &Fields, wrote: &Wrote) -> Option<Reply>
    requires { AreOfGroup (data_of fields.now) }
    ensures { result ≡ tell_reply (seen (data_of fields.now)) wrote.now }
{
    match manager_of(&fields.managers, &wrote.alias) {
        Some(manager) => said_of(manager, wrote),
        None => Some(Reply::Gone),
    }
}

/// The command of this number, also if it has ended.
fn numbered(commands: &[CommandState], command: u64) -> Option<&CommandState>
    ensures { option_copied result ≡ numbered commands.now command }
{
    let at = command.checked_sub(1)?;
    commands.get(at as usize)
}

/// What a command would be told of what it wrote.
fn tell_of(fields: &Fields, command: u64) -> Option<Reply>
    requires { AreOfGroup (data_of fields.now) }
    ensures { result ≡ tell_of (seen (data_of fields.now)) command }
{
    match numbered(&fields.commands, command) {
        Some(state) => match &state.wrote {
            Some(wrote) => tell_reply(fields, wrote),
            None => None,
        },
        None => None,
    }
}

fn nothing() -> Found
    ensures { result ≡ record { why = None; offer = None; told = None } }
{
    Found {
        why: None,
        offer: None,
        told: None,
    }
}

/// Looks for what the condition of the event's row goes by.
pub(crate) fn find(fields: &Fields, event: &Event) -> Found
    requires group { AreOfGroup (data_of fields.now) }
    requires known { KnowsTablets (data_of fields.now) }
    requires addressed { AreAddressed (data_of fields.now) }
    ensures { IsFound (seen (data_of fields.now)) event.now result }
{
    match event {
        Event::Begin { .. } => nothing(),
        Event::Take { .. } => nothing(),
        Event::Read { .. } => nothing(),
        Event::Intend { .. } => nothing(),
        Event::Record { .. } => nothing(),
        Event::Drain { .. } => nothing(),
        Event::Release { .. } => nothing(),
        Event::Lapse => nothing(),
        Event::Send { .. } => nothing(),
        Event::Deliver { .. } => nothing(),
        Event::GiveUp { command, message } => Found {
            why: why_given_up(fields, *command, *message),
            offer: None,
            told: None,
        },
        Event::Offer { alias } => Found {
            why: None,
            offer: offer_to(fields, alias),
            told: None,
        },
        Event::Write { .. } => nothing(),
        Event::Tell { command } => Found {
            why: None,
            offer: None,
            told: tell_of(fields, *command),
        },
        Event::Local { .. } => nothing(),
        Event::Crash { .. } => nothing(),
        Event::Restart { .. } => nothing(),
        Event::Cut { .. } => nothing(),
        Event::Mend { .. } => nothing(),
        Event::Lose { .. } => nothing(),
        Event::Tick { .. } => nothing(),
        Event::End { .. } => nothing(),
    }
}
