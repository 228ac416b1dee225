//! Commands by their numbers, counted from 1.

ghost use Rattle.std.specs.Prelude.{◌≡◌};
ghost use Rattle.std.specs.Option.{option_copied};
ghost use Rattle.shard_calls.specs.World.{numbered, if_open, term_in};

use shard_calls::CommandState;

/// The command of this number.
pub(crate) fn command_of(commands: &[CommandState], command: u64) -> Option<&CommandState>
    ensures { option_copied result ≡ numbered commands.now command }
{
    let at = command.checked_sub(1)?;
    commands.get(at as usize)
}

/// The command of this number, if it has not ended.
pub fn open_command(commands: &[CommandState], command: u64) -> Option<&CommandState>
    ensures { option_copied result ≡ if_open (numbered commands.now command) }
{
    let at = command.checked_sub(1)?;
    match commands.get(at as usize) {
        Some(state) if !state.ended => Some(state),
        _ => None,
    }
}

/// The term in which an open command took the lock.
pub fn term_of(commands: &[CommandState], command: u64) -> Option<u64>
    ensures { result ≡ term_in (if_open (numbered commands.now command)) }
{
    match open_command(commands, command) {
        Some(state) => state.term,
        None => None,
    }
}
