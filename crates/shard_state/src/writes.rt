//! Whether a command may write.

ghost use Rattle.std.specs.Prelude.{◌≡◌};
ghost use Rattle.shard_calls.specs.World.{numbered, if_open};
ghost use Rattle.shard_calls.specs.Writes.{is_write, may_write};

use crate::lookups::open_command;
use shard_calls::{Command, CommandState};

fn is_write(command: &Command) -> bool
    ensures { result ≡ is_write command.now }
{
    match command {
        Command::Planned { .. } => false,
        Command::Emergency { .. } => false,
        Command::External { .. } => false,
        Command::Vtorc => false,
        Command::Write { .. } => true,
        Command::Show { .. } => false,
        Command::GetShard { .. } => false,
        Command::GetTablets { .. } => false,
    }
}

/// Whether the command of this number is open, is a write, and has written nothing.
pub fn may_write(commands: &[CommandState], command: u64) -> bool
    ensures { result ≡ may_write (if_open (numbered commands.now command)) }
{
    match open_command(commands, command) {
        Some(state) => is_write(&state.command) && state.wrote.is_none(),
        None => false,
    }
}
