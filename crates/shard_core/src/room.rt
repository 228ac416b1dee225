ghost use Rattle.std.specs.Prelude.{◌≡◌, ◌+◌, ◌-◌, ◌<◌, ◌≤◌, ◌^◌};
ghost use Rattle.shard_calls.specs.World.{numbered, if_open};
ghost use Rattle.shard_state.specs.State.{data_of, seen};
ghost use Rattle.shard_core.specs.Room.{debt, is_unreleased, owed_less, owed_released, owed_after};

use shard_calls::{CommandState, Event};
use shard_state::{Fields, open_command};

/// The steps that the command still owes: its End, and before it its Release.
fn debt(state: &CommandState) -> u64
    ensures { result ≡ debt state.now }
{
    if state.ended {
        0
    } else if state.released {
        1
    } else {
        2
    }
}

/// Whether the command is open and has made no Release.
fn is_unreleased(commands: &[CommandState], command: u64) -> bool
    ensures { result ≡ is_unreleased (if_open (numbered commands.now command)) }
{
    match open_command(commands, command) {
        Some(state) => !state.released,
        None => false,
    }
}

fn owed_released(owed: u64, is_first: bool) -> u64
    ensures { result ≡ owed_released owed is_first }
{
    if is_first {
        owed.saturating_sub(1)
    } else {
        owed
    }
}

fn owed_less(commands: &[CommandState], command: u64, owed: u64) -> u64
    ensures { result ≡ owed_less owed (if_open (numbered commands.now command)) }
{
    match open_command(commands, command) {
        Some(state) => owed.saturating_sub(debt(state)),
        None => owed,
    }
}

/// The steps that open commands owe after this event, where they owed so many before.
pub(crate) fn owed_after(fields: &Fields, owed: u64, event: &Event) -> u64
    requires { owed < 2 ^ 64 - 2 }
    ensures { result ≡ owed_after (seen (data_of fields.now)) owed event.now }
{
    match event {
        Event::Begin { .. } => owed + 2,
        Event::Take { .. } => owed,
        Event::Read { .. } => owed,
        Event::Intend { .. } => owed,
        Event::Record { .. } => owed,
        Event::Drain { .. } => owed,
        Event::Release { command } => owed_released(
            owed,
            is_unreleased(&fields.commands, *command),
        ),
        Event::Lapse => owed,
        Event::Send { .. } => owed,
        Event::Deliver { .. } => owed,
        Event::GiveUp { .. } => owed,
        Event::Offer { .. } => owed,
        Event::Write { .. } => owed,
        Event::Tell { .. } => owed,
        Event::Local { .. } => owed,
        Event::Crash { .. } => owed,
        Event::Restart { .. } => owed,
        Event::Cut { .. } => owed,
        Event::Mend { .. } => owed,
        Event::Lose { .. } => owed,
        Event::Tick { .. } => owed,
        Event::End { command, .. } => owed_less(&fields.commands, *command, owed),
    }
}
