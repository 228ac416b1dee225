//! What a command does that its course demands.

ghost use Rattle.std.specs.Prelude.{◌≡◌, Some, IfOk};
ghost use Rattle.shard_calls.specs.declared.event.Event.TheVariants as events;
ghost use Rattle.shard_calls.specs.declared.refusal.Refusal.TheVariants as refusals;
ghost use Rattle.shard_core.specs.Kept.{world_of};
ghost use Rattle.planned.specs.Leaving.{refusing};
ghost use Rattle.planned.specs.Course.{timed, if_met, tells, does, first_of};

use crate::leaving::refusing;
use crate::timing::timed;
use courses::Want;
use shard_base::OutOfMemory;
use shard_calls::{Call, CommandState, Event, Refusal};
use shard_core::Shard;
use shard_names::Alias;

/// It leaves instead of this.
fn instead(command: u64, state: &CommandState, event: Event) -> Event
    ensures { result ≡ refusing command state.now refusals.OutOfMemory }
{
    let _not_made = event;
    refusing(command, state, Refusal::OutOfMemory)
}

fn starved(event: Event) -> OutOfMemory {
    let _not_made = event;
    OutOfMemory
}

/// This event, or, where its condition does not hold, that by which the command leaves as for want of memory.
pub(crate) fn if_met(
    shard: &Shard,
    command: u64,
    state: &CommandState,
    event: Event,
) -> Result<Option<Event>, OutOfMemory>
    ensures { IfOk result (λ made. made ≡ Some (if_met shard.now.config (world_of shard.now) command state.now event)) }
{
    match shard.meets(&event) {
        Ok(true) => Ok(Some(event)),
        Ok(false) => Ok(Some(instead(command, state, event))),
        Err(OutOfMemory) => Err(starved(event)),
    }
}

/// The call, made now.
#[tactic(auto, using(crate::proofs::LateLemmas::never_late))]
fn sent(
    shard: &Shard,
    command: u64,
    state: &CommandState,
    alias: Alias,
    call: Call,
) -> Result<Option<Event>, OutOfMemory>
    ensures { IfOk result (λ made. made ≡ Some (if_met shard.now.config (world_of shard.now) command state.now (events.Send command alias (timed (world_of shard.now).clock call)))) }
{
    match timed(shard.clock(), call) {
        Some(call) => if_met(
            shard,
            command,
            state,
            Event::Send {
                command,
                alias,
                call,
            },
        ),
        None => Ok(Some(refusing(command, state, Refusal::OutOfMemory))),
    }
}

/// It looks whether what it wrote counts as committed, if that can be said.
fn tells(shard: &Shard, command: u64) -> Option<Event>
    ensures { result ≡ first_of (tells (world_of shard.now) command) }
{
    let event = Event::Tell { command };
    if shard.meets_at_once(&event) {
        Some(event)
    } else {
        None
    }
}

/// What the course demands, if it can be done.
pub(crate) fn does(
    shard: &Shard,
    command: u64,
    state: &CommandState,
    want: Want,
) -> Result<Option<Event>, OutOfMemory>
    ensures { IfOk result (λ made. made ≡ first_of (does shard.now.config (world_of shard.now) command state.now want)) }
{
    match want {
        Want::Take => if_met(shard, command, state, Event::Take { command }),
        Want::Read => if_met(shard, command, state, Event::Read { command }),
        Want::Intend { alias } => if_met(shard, command, state, Event::Intend { command, alias }),
        Want::Record { alias } => if_met(shard, command, state, Event::Record { command, alias }),
        Want::Drain { alias } => if_met(shard, command, state, Event::Drain { command, alias }),
        Want::Ask { alias, call } => sent(shard, command, state, alias, call),
        Want::Write { alias } => if_met(shard, command, state, Event::Write { command, alias }),
        Want::Tell => Ok(tells(shard, command)),
    }
}
