//! A reply once more, for the step that is kept and for the caller. What was read is copied before the step, so that want of memory changes
//! nothing.

ghost use Rattle.std.specs.Prelude.{◌≡◌, true, IsOk, IfOk};
ghost use Rattle.shard_calls.specs.World.{term_of};
ghost use Rattle.shard_state.specs.State.{data_of, seen};
ghost use Rattle.changes.specs.Makes.{takes_no_memory};
ghost use Rattle.shard_core.specs.Spares.{read_by, spare_of, IsSpare};

use changes::seen_in;
use shard_base::OutOfMemory;
use shard_calls::{Event, Reply, Seen};
use shard_state::{Fields, term_of};

/// What the command would read of the topology.
fn read_by(fields: &Fields, command: u64) -> Result<Option<Seen>, OutOfMemory>
    ensures { IfOk result (λ spare. spare ≡ read_by (seen (data_of fields.now)) (term_of (seen (data_of fields.now)) command)) }
{
    match term_of(&fields.commands, command) {
        Some(term) => {
            if !fields.topo.is_held_in(term) {
                return Ok(None);
            }
            let seen = seen_in(fields.alloc, &fields.topo)?;
            Ok(Some(seen))
        }
        None => Ok(None),
    }
}

/// What the event is to read of the topology, if it reads anything.
pub(crate) fn spare_of(fields: &Fields, event: &Event) -> Result<Option<Seen>, OutOfMemory>
    ensures spare { IfOk result (λ spare. spare ≡ spare_of (seen (data_of fields.now)) event.now) }
    ensures kept { takes_no_memory event.now ≡ true → IsOk result }
{
    match event {
        Event::Read { command } => read_by(fields, *command),
        _ => Ok(None),
    }
}

/// The same reply once more. What was read comes from the spare copy.
pub(crate) fn again(reply: &Reply, spare: Option<Seen>) -> Reply
    requires { IsSpare reply.now spare }
    ensures { result ≡ reply.now }
{
    match reply {
        Reply::Begun { command } => Reply::Begun { command: *command },
        Reply::Term { term } => Reply::Term { term: *term },
        Reply::Taken { term, actor } => Reply::Taken {
            term: *term,
            actor: *actor,
        },
        Reply::Read(_) => match spare {
            Some(seen) => Reply::Read(seen),
            None => unreachable!(),
        },
        Reply::Lost { term } => Reply::Lost { term: *term },
        Reply::Stands { alias } => Reply::Stands { alias: *alias },
        Reply::Message { message } => Reply::Message { message: *message },
        Reply::GaveUp(why) => Reply::GaveUp(*why),
        Reply::Wrote { gtid } => Reply::Wrote { gtid: *gtid },
        Reply::NotPrimary { stand } => Reply::NotPrimary { stand: *stand },
        Reply::Told => Reply::Told,
        Reply::Gone => Reply::Gone,
        Reply::Ok => Reply::Ok,
    }
}
