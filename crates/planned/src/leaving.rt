//! How a command leaves.

ghost use Rattle.std.specs.Prelude.{◌≡◌};
ghost use Rattle.shard_core.specs.Kept.{world_of};
ghost use Rattle.planned.specs.Leaving.{owes_release, leaving, refusing};
ghost use Rattle.planned.specs.Course.{leaves};

use shard_calls::{CommandAnswer, CommandState, Event, Refusal};
use shard_core::Shard;

/// Whether the command took the lock, and has not freed it.
fn owes_release(state: &CommandState) -> bool
    ensures { result ≡ owes_release state.now }
{
    state.term.is_some() && !state.released
}

/// How a command leaves with this answer: it frees the lock once, if it took it, and ends.
pub(crate) fn leaving(command: u64, state: &CommandState, answer: CommandAnswer) -> Event
    ensures { result ≡ leaving command state.now answer }
{
    if owes_release(state) {
        Event::Release { command }
    } else {
        Event::End { command, answer }
    }
}

/// How a command leaves that is refused.
pub(crate) fn refusing(command: u64, state: &CommandState, refusal: Refusal) -> Event
    ensures { result ≡ refusing command state.now refusal }
{
    let undone = None;
    leaving(command, state, CommandAnswer::Refused { refusal, undone })
}

/// How an open command leaves that has run out of memory: it frees the lock once, if it took it, and ends. It takes no memory.
pub fn leaves(shard: &Shard, command: u64) -> Event
    ensures { result ≡ leaves (world_of shard.now) command }
{
    match shard.command(command) {
        Some(state) => refusing(command, state, Refusal::OutOfMemory),
        None => Event::End {
            command,
            answer: CommandAnswer::Refused {
                refusal: Refusal::OutOfMemory,
                undone: None,
            },
        },
    }
}
