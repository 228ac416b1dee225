//! The least message that may come.

ghost use Rattle.std.specs.Prelude.{◌≡◌, slice_get, min};
ghost use Rattle.std.specs.List.{find};
ghost use Rattle.shard_state.specs.State.{seen, data_of, AreOfGroup};
ghost use Rattle.arrivals.specs.Arrivals.{is_due, next_due};
ghost use Rattle.arrivals.specs.Receivers.{due_for, due_in, due_of, earlier, OpenAreOfActors};
ghost use Rattle.arrivals.specs.Ways.{is_due_at, if_passes};

use crate::receivers::may_arrive;
use post::Queue;
use shard_calls::{ActorState, Message};
use shard_state::Fields;

/// Whether it has not come to its receiver, and may.
pub(crate) fn is_due(fields: &Fields, message: &Message) -> bool
    requires group { AreOfGroup (data_of fields.now) }
    ensures { result ≡ is_due (seen (data_of fields.now)) message.now }
{
    message.arrived.is_none() && may_arrive(fields, message)
}

fn is_due_at(fields: &Fields, number: u64) -> bool
    requires group { AreOfGroup (data_of fields.now) }
    ensures { result ≡ is_due_at (data_of fields.now) number }
{
    match fields.post.message(number) {
        Some(message) => is_due(fields, message),
        None => false,
    }
}

/// The number at an index of the queue, if its message is due.
fn due_number(fields: &Fields, queue: &Queue, at: usize) -> Option<u64>
    requires group { AreOfGroup (data_of fields.now) }
    ensures { result ≡ if_passes (is_due_at (data_of fields.now)) (slice_get queue.now at) }
{
    match queue.get(at) {
        Some(number) => {
            if is_due_at(fields, number) {
                return Some(number);
            }
            None
        }
        None => None,
    }
}

/// The first number of the queue whose message is due. It costs a few steps for each before it.
fn first_in(fields: &Fields, queue: &Queue) -> Option<u64>
    requires group { AreOfGroup (data_of fields.now) }
    ensures { result ≡ find (is_due_at (data_of fields.now)) queue.now }
{
    for at in 0..queue.len() {
        let found = due_number(fields, queue, at);
        if found.is_some() {
            return found;
        }
    }
    None
}

/// The first number whose message is due to the command of a number, or with 0 to a tablet. It costs a few steps for each message that waits for
/// it before that.
fn first_for(fields: &Fields, command: u64) -> Option<u64>
    requires group { AreOfGroup (data_of fields.now) }
    ensures { result ≡ due_for (data_of fields.now) command }
{
    match fields.post.waiting_for(command) {
        Some(queue) => first_in(fields, queue),
        None => None,
    }
}

/// The same for the command that an actor has open.
fn first_of(fields: &Fields, pending: Option<u64>) -> Option<u64>
    requires group { AreOfGroup (data_of fields.now) }
    ensures { result ≡ due_in (data_of fields.now) pending }
{
    match pending {
        Some(command) => first_for(fields, command),
        None => None,
    }
}

fn least(one: u64, other: u64) -> u64
    ensures { result ≡ min one other }
{
    if one <= other { one } else { other }
}

fn earlier(one: Option<u64>, other: Option<u64>) -> Option<u64>
    ensures { result ≡ earlier one other }
{
    match (one, other) {
        (None, other) => other,
        (Some(one), None) => Some(one),
        (Some(one), Some(other)) => Some(least(one, other)),
    }
}

/// The least of this number and those that are due to the commands which these actors have open.
fn least_of(fields: &Fields, actors: &[ActorState], found: Option<u64>) -> Option<u64>
    requires group { AreOfGroup (data_of fields.now) }
    ensures { result ≡ earlier found (due_of (data_of fields.now) actors.now) }
{
    let mut first = found;
    let mut rest = actors;
    while let Some((actor, more)) = rest.split_first() {
        first = earlier(first, first_of(fields, actor.pending));
        rest = more;
    }
    first
}

/// The message that comes next of itself: the first that has not come to its receiver, and may.
///
/// It costs a few steps for each actor, for each message that waits for a tablet before the first that may come, and for each answer that waits so
/// for an open command. Answers to commands that have ended cost nothing.
pub fn deliverable(fields: &Fields) -> Option<u64>
    requires group { AreOfGroup (data_of fields.now) }
    requires open { OpenAreOfActors (data_of fields.now) }
    ensures { result ≡ next_due (seen (data_of fields.now)) }
{
    let found = first_for(fields, 0);
    least_of(fields, fields.actors.as_slice(), found)
}
