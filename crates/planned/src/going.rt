//! What a command does next.

ghost use Rattle.std.specs.Prelude.{◌≡◌, Some, IfOk};
ghost use Rattle.shard_calls.specs.Spans.{span_in};
ghost use Rattle.shard_calls.specs.World.{group_of};
ghost use Rattle.shard_core.specs.Kept.{world_of};
ghost use Rattle.planned.specs.Course.{may_by, demand_of, state_next, first_of, next};

use crate::doing::{does, if_met};
use crate::leaving::leaving;
use crate::waiting::first_given_up;
use courses::Demand;
use recovery_loop::demand;
use shard_base::OutOfMemory;
use shard_calls::{CommandState, Deed, Event, Group};
use shard_core::Shard;

/// What the command did, with what each call came to.
fn span_of(shard: &Shard, state: &CommandState) -> Result<Vec<Deed>, OutOfMemory>
    ensures { IfOk result (λ span. span.items ≡ span_in (world_of shard.now).post state.now) }
{
    let fields = shard.fields();
    shard_state::span_of(fields.alloc, &fields.post, state)
}

fn group_of(shard: &Shard) -> Result<Group, OutOfMemory>
    ensures { IfOk result (λ group. group ≡ group_of shard.now.config) }
{
    let fields = shard.fields();
    shard_state::group_of(fields.alloc, fields)
}

/// What the course of the command demands, by what the command did.
fn demand_by(shard: &Shard, state: &CommandState, span: &[Deed]) -> Result<Demand, OutOfMemory>
    requires { span.now ≡ span_in (world_of shard.now).post state.now }
    ensures { IfOk result (λ demand. demand ≡ demand_of shard.now.config (world_of shard.now) state.now) }
{
    let group = group_of(shard)?;
    demand(
        shard.fields().alloc,
        &group,
        &state.command,
        &state.opening,
        span,
    )
}

/// What is to be done where the course demands this.
fn by_demand(
    shard: &Shard,
    command: u64,
    state: &CommandState,
    span: &[Deed],
    demand: Demand,
) -> Result<Option<Event>, OutOfMemory>
    requires { span.now ≡ span_in (world_of shard.now).post state.now }
    ensures { IfOk result (λ event. event ≡ first_of (may_by shard.now.config (world_of shard.now) command state.now demand)) }
{
    match demand {
        Demand::Does { want } => does(shard, command, state, want),
        Demand::Awaits => Ok(first_given_up(shard, command, span)),
        Demand::Leaves { answer } => {
            if_met(shard, command, state, leaving(command, state, answer))
        }
    }
}

fn state_next(
    shard: &Shard,
    command: u64,
    state: &CommandState,
) -> Result<Option<Event>, OutOfMemory>
    ensures { IfOk result (λ event. event ≡ first_of (state_next shard.now.config (world_of shard.now) command (Some state.now))) }
{
    let span = span_of(shard, state)?;
    let demand = demand_by(shard, state, &span)?;
    by_demand(shard, command, state, &span, demand)
}

/// What an open command does next, if it has anything to do: what its course demands by what it did and what its calls came to, as a command of
/// vtctldclient or VTOrc (Vitess manual), or as a client of MySQL. While it waits for calls, it gives up the first that it may. Where a step that
/// it is to make cannot be made, it leaves as for want of memory.
///
/// The only error is want of memory. It costs one walk along what the command did, with what each call came to.
pub fn next(shard: &Shard, command: u64) -> Result<Option<Event>, OutOfMemory>
    ensures { IfOk result (λ event. event ≡ next shard.now.config (world_of shard.now) command) }
{
    match shard.command(command) {
        Some(state) => state_next(shard, command, state),
        None => Ok(None),
    }
}
