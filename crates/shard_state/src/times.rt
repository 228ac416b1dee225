//! How far the clock may go, and how long a command waits.

ghost use Rattle.std.specs.Prelude.{◌≡◌};
ghost use Rattle.shard_calls.specs.Begins.{is_in_time};
ghost use Rattle.shard_calls.specs.Commands.{timeout_of};
ghost use Rattle.shard_calls.specs.Table.{may_tick};
ghost use Rattle.shard_state.specs.State.{data_of, seen};

use crate::Fields;
use shard_calls::Command;

/// The most milliseconds that go by at once, and for which a command waits: a day.
const MOST_MILLISECONDS: u64 = 86400000;

/// Where the year 9999 begins, in milliseconds since the start of 1970.
const LAST_MOMENT: u64 = 253370764800000;

/// How long a command waits for an answer, in milliseconds, where it does not say.
const TIMEOUT: u64 = 15000;

/// Whether so many milliseconds may go by.
pub fn may_tick(fields: &Fields, milliseconds: u64) -> bool
    ensures { result ≡ may_tick (seen (data_of fields.now)) milliseconds }
{
    match fields.clock.checked_add(milliseconds) {
        Some(clock) => milliseconds <= MOST_MILLISECONDS && clock < LAST_MOMENT,
        None => false,
    }
}

/// The milliseconds that a command waits for an answer.
pub fn timeout_of(command: &Command) -> u64
    ensures { result ≡ timeout_of command.now }
{
    match command {
        Command::Planned { timeout, .. } => timeout.unwrap_or(TIMEOUT),
        Command::Emergency { timeout, .. } => timeout.unwrap_or(TIMEOUT),
        Command::External { .. } => TIMEOUT,
        Command::Vtorc => TIMEOUT,
        Command::Write { .. } => TIMEOUT,
        Command::Show { .. } => TIMEOUT,
        Command::GetShard { .. } => TIMEOUT,
        Command::GetTablets { .. } => TIMEOUT,
    }
}

/// Whether the command waits a day for an answer at most.
pub fn is_in_time(command: &Command) -> bool
    ensures { result ≡ is_in_time command.now }
{
    timeout_of(command) <= MOST_MILLISECONDS
}
