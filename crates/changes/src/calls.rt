//! What goes out: calls to tablets, entries to replicas, and what a client is told.

ghost use Rattle.std.specs.Prelude.{◌≡◌, true, OnErr, IfOk};
ghost use Rattle.shard_calls.specs.Messages.{offer_to};
ghost use Rattle.shard_calls.specs.Deliveries.{call_of};
ghost use Rattle.shard_calls.specs.Writes.{told_act, tell_of};
ghost use Rattle.shard_calls.specs.Table.{meets};
ghost use Rattle.shard_calls.specs.declared.event.Event.TheVariants as events;
ghost use Rattle.shard_state.specs.State.{data_of, config_in, seen};
ghost use Rattle.changes.specs.Makes.{Makes};

use crate::acts::act;
use shard_base::OutOfMemory;
use shard_calls::{Act, Call, Content, Reply};
use shard_names::Alias;
use shard_state::{Fields, term_of};

/// The same call once more.
pub(crate) fn copy_call(call: &Call) -> Result<Call, OutOfMemory>
    ensures { IfOk result (λ copy. copy ≡ call.now) }
{
    match call {
        Call::Status => Ok(Call::Status),
        Call::Stop => Ok(Call::Stop),
        Call::Demote => Ok(Call::Demote),
        Call::Promote { position } => {
            let position = position.copy()?;
            Ok(Call::Promote { position })
        }
        Call::SetSource {
            source,
            stand,
            position,
        } => {
            let position = position.copy()?;
            Ok(Call::SetSource {
                source: *source,
                stand: *stand,
                position,
            })
        }
        Call::Feed => Ok(Call::Feed),
        Call::WaitFor { position, until } => {
            let position = position.copy()?;
            Ok(Call::WaitFor {
                position,
                until: *until,
            })
        }
        Call::WaitTold { until } => Ok(Call::WaitTold { until: *until }),
    }
}

/// The call as a message of the command's.
fn call_of(
    fields: &Fields,
    command: u64,
    alias: &Alias,
    call: &Call,
) -> Result<Content, OutOfMemory>
    ensures { IfOk result (λ content. content ≡ call_of (seen (data_of fields.now)) command alias.now call.now) }
{
    let term = term_of(&fields.commands, command).unwrap_or(0);
    let call = copy_call(call)?;
    Ok(Content::Asks {
        command,
        term,
        to: *alias,
        call,
    })
}

/// The command calls a tablet.
pub(crate) fn send(
    fields: &mut Fields,
    command: u64,
    alias: &Alias,
    call: &Call,
) -> Result<Reply, OutOfMemory>
    ensures made { IfOk result (λ reply. Makes (data_of fields.old) (data_of fields.new) (events.Send command alias.now call.now) reply) }
    ensures err { OnErr result (data_of fields.new ≡ data_of fields.old) }
{
    let content = call_of(fields, command, alias, call)?;
    let now = fields.clock;
    let number = fields.post.send(content, now)?;
    match act(&mut fields.commands, command, Act::Sent { message: number }) {
        Ok(()) => Ok(Reply::Message { message: number }),
        Err(fault) => {
            fields.post.take_back();
            Err(fault)
        }
    }
}

/// The replica's source sends it this.
pub(crate) fn offer(
    fields: &mut Fields,
    alias: &Alias,
    content: Option<Content>,
) -> Result<Reply, OutOfMemory>
    requires found { content ≡ offer_to (seen (data_of fields.old)) alias.now }
    requires met { meets (config_in (data_of fields.old)) (seen (data_of fields.old)) (events.Offer alias.now) ≡ true }
    ensures made { IfOk result (λ reply. Makes (data_of fields.old) (data_of fields.new) (events.Offer alias.now) reply) }
    ensures err { OnErr result (data_of fields.new ≡ data_of fields.old) }
{
    let _to = alias;
    let now = fields.clock;
    match content {
        Some(content) => {
            let number = fields.post.send(content, now)?;
            Ok(Reply::Message { message: number })
        }
        None => unreachable!(),
    }
}

/// What the command keeps of such a reply.
fn told_act(reply: &Reply) -> Option<Act>
    ensures { result ≡ told_act reply.now }
{
    match reply {
        Reply::Told => Some(Act::Told { committed: true }),
        Reply::Gone => Some(Act::Told { committed: false }),
        _ => None,
    }
}

/// The command is told this of its entry.
pub(crate) fn tell(
    fields: &mut Fields,
    command: u64,
    told: Option<Reply>,
) -> Result<Reply, OutOfMemory>
    requires found { told ≡ tell_of (seen (data_of fields.old)) command }
    requires met { meets (config_in (data_of fields.old)) (seen (data_of fields.old)) (events.Tell command) ≡ true }
    ensures made { IfOk result (λ reply. Makes (data_of fields.old) (data_of fields.new) (events.Tell command) reply) }
    ensures err { OnErr result (data_of fields.new ≡ data_of fields.old) }
{
    match told {
        Some(reply) => match told_act(&reply) {
            Some(new) => {
                act(&mut fields.commands, command, new)?;
                Ok(reply)
            }
            None => Ok(reply),
        },
        None => unreachable!(),
    }
}
