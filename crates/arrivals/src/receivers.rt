//! Whether a message may come to the one that it is for.

ghost use Rattle.std.specs.Prelude.{◌≡◌, ◌&&◌, ◌||◌, not, nat_lt, nat_le, Some};
ghost use Rattle.gtid_sets.specs.Logs.{position_of};
ghost use Rattle.gtid_sets.specs.Position.{covers, nothing};
ghost use Rattle.shard_calls.specs.Messages.{is_ready, is_received, may_arrive, is_deliverable};
ghost use Rattle.shard_calls.specs.Stands.{is_down, is_primary_of};
ghost use Rattle.shard_calls.specs.Tablets.{opened, is_row_told};
ghost use Rattle.shard_state.specs.State.{seen, data_of, state_at, AreOfGroup};
ghost use Rattle.shard_state.specs.Managers.{manager_of};
ghost use Rattle.tablet_manager.specs.Managed.{state_of};

use crate::links::{is_cut, link_of};
use gtid_sets::{GtidSet, covers};
use shard_calls::{Call, Content, Message};
use shard_names::Alias;
use shard_state::{Fields, is_down, manager_of, open_command};
use tablet_manager::Manager;

/// Whether the tablet can say how it went with the row of the term, or the moment has come.
fn has_outcome(manager: &Manager, term: u64, until: u64, now: u64) -> bool
    ensures { result ≡ (nat_lt term manager.now.log.seen || not (is_primary_of manager.now.stand term) || is_row_told manager.now.group manager.now.me (state_of manager.now) term || nat_le until now) }
{
    term < manager.log().seen()
        || !manager.stand().is_primary_of(term)
        || manager.is_row_told(term)
        || until <= now
}

/// Whether the tablet holds the position, or has seen a later term, or the moment has come. It reads the position that the log keeps.
fn has_position(manager: &Manager, term: u64, position: &GtidSet, until: u64, now: u64) -> bool
    ensures { result ≡ (nat_lt term manager.now.log.seen || covers (position_of manager.now.log.entries) position.now || nat_le until now) }
{
    term < manager.log().seen() || covers(manager.log().held(), position) || until <= now
}

/// Whether the tablet, which has this manager, answers a call of this term yet.
fn is_ready(fields: &Fields, to: &Alias, manager: &Manager, term: u64, call: &Call) -> bool
    requires there { manager_of fields.now.managers.items to.now ≡ Some manager.now }
    requires group { AreOfGroup (data_of fields.now) }
    ensures { result ≡ is_ready (seen (data_of fields.now)) to.now term call.now }
{
    match call {
        Call::Status => true,
        Call::Stop => true,
        Call::Demote => true,
        Call::Promote { .. } => true,
        Call::SetSource { .. } => true,
        Call::Feed => true,
        Call::WaitFor { position, until } => {
            has_position(manager, term, position, *until, fields.clock)
        }
        Call::WaitTold { until } => has_outcome(manager, term, *until, fields.clock),
    }
}

/// Whether who has nothing holds the position, or the moment has come. It takes no memory.
fn nothing_holds(fields: &Fields, position: &GtidSet, until: u64) -> bool
    ensures { result ≡ (covers nothing position.now || nat_le until fields.now.clock) }
{
    let none = GtidSet::empty(fields.alloc);
    covers(&none, position) || until <= fields.clock
}

/// Whether a tablet that is none of the shard's, and so has done nothing, answers a call of this term yet.
fn is_ready_nowhere(fields: &Fields, to: &Alias, term: u64, call: &Call) -> bool
    requires nowhere { opened ≡ state_at fields.now.managers.items to.now }
    ensures { result ≡ is_ready (seen (data_of fields.now)) to.now term call.now }
{
    match call {
        Call::Status => true,
        Call::Stop => true,
        Call::Demote => true,
        Call::Promote { .. } => true,
        Call::SetSource { .. } => true,
        Call::Feed => true,
        Call::WaitFor { position, until } => nothing_holds(fields, position, *until),
        Call::WaitTold { .. } => true,
    }
}

/// Whether the tablet takes the call.
fn takes_call(fields: &Fields, to: &Alias, term: u64, call: &Call) -> bool
    requires group { AreOfGroup (data_of fields.now) }
    ensures { result ≡ (not (is_down (state_at fields.now.managers.items to.now).stand) && is_ready (seen (data_of fields.now)) to.now term call.now) }
{
    match manager_of(&fields.managers, to) {
        Some(manager) => { !manager.stand().is_down() && is_ready(fields, to, manager, term, call) }
        None => is_ready_nowhere(fields, to, term, call),
    }
}

/// Whether the receiver takes it: a tablet that is not down, or a command that has not ended.
fn is_received(fields: &Fields, content: &Content) -> bool
    requires group { AreOfGroup (data_of fields.now) }
    ensures { result ≡ is_received (seen (data_of fields.now)) content.now }
{
    match content {
        Content::Asks { term, to, call, .. } => takes_call(fields, to, *term, call),
        Content::Answers { command, .. } => open_command(&fields.commands, *command).is_some(),
        Content::Feeds { to, .. } => !is_down(&fields.managers, to),
        Content::Acks { to, .. } => !is_down(&fields.managers, to),
    }
}

/// Whether the message would come to its receiver now: it is not lost, its link is not cut, and the receiver takes it.
pub fn may_arrive(fields: &Fields, message: &Message) -> bool
    requires group { AreOfGroup (data_of fields.now) }
    ensures { result ≡ may_arrive (seen (data_of fields.now)) message.now }
{
    !message.lost
        && !is_cut(&fields.cuts, &link_of(&message.content))
        && is_received(fields, &message.content)
}

/// Whether the message of this number may be delivered, for the first time or again.
pub fn is_deliverable(fields: &Fields, number: u64) -> bool
    requires group { AreOfGroup (data_of fields.now) }
    ensures { result ≡ is_deliverable (seen (data_of fields.now)) number }
{
    match fields.post.message(number) {
        Some(message) => may_arrive(fields, message),
        None => false,
    }
}
