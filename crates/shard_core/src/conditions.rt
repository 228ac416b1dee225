//! Whether the condition of an event's row holds.

ghost use Rattle.std.specs.Prelude.{◌≡◌, ◌&&◌, true, IsOk, IfOk};
ghost use Rattle.shard_calls.specs.Table.{meets, row_number};
ghost use Rattle.shard_calls.specs.declared.event.Event.TheVariants as events;
ghost use Rattle.shard_state.specs.State.{seen, data_of, config_in, AreOfGroup};
ghost use Rattle.changes.specs.Makes.{IsFound};
ghost use Rattle.shard_core.specs.Causes.{is_told_at_once};

use crate::ending::{has_cause, has_cause_at_once};
use arrivals::is_deliverable;
use changes::Found;
use shard_base::OutOfMemory;
use shard_calls::Event;
use shard_names::Alias;
use shard_state::{
    Fields, is_declared, is_down, is_eligible_alias, is_in_time, is_link, may_record, may_send,
    may_tick, may_write, names_declared, open_of, term_of, took_nothing,
};

/// Whether the condition of the row Intend holds.
fn may_be_intended(fields: &Fields, command: u64, alias: &Alias) -> bool
    requires group { AreOfGroup (data_of fields.now) }
    ensures { result ≡ meets (config_in (data_of fields.now)) (seen (data_of fields.now)) (events.Intend command alias.now) }
{
    term_of(&fields.commands, command).is_some() && is_eligible_alias(fields, alias)
}

/// Whether the condition of the row Record holds.
fn may_be_recorded(fields: &Fields, command: u64, alias: &Alias) -> bool
    requires group { AreOfGroup (data_of fields.now) }
    ensures { result ≡ meets (config_in (data_of fields.now)) (seen (data_of fields.now)) (events.Record command alias.now) }
{
    let term = term_of(&fields.commands, command);
    is_declared(&fields.managers, alias) && may_record(&fields.topo, alias, term)
}

/// Whether the condition of the event's row holds, where this was found of it, and whether that is told without memory.
pub(crate) fn meets_at_once(fields: &Fields, event: &Event, found: &Found) -> bool
    requires group { AreOfGroup (data_of fields.now) }
    requires found { IsFound (seen (data_of fields.now)) event.now found.now }
    ensures { result ≡ (is_told_at_once event.now && meets (config_in (data_of fields.now)) (seen (data_of fields.now)) event.now) }
{
    match event {
        Event::Begin { actor, command } => {
            open_of(&fields.actors, actor).is_none()
                && is_in_time(command)
                && names_declared(fields, command)
        }
        Event::Take { command } => took_nothing(&fields.commands, *command),
        Event::Read { command } => term_of(&fields.commands, *command).is_some(),
        Event::Intend { command, alias } => may_be_intended(fields, *command, alias),
        Event::Record { command, alias } => may_be_recorded(fields, *command, alias),
        Event::Drain { command, alias } => {
            is_declared(&fields.managers, alias) && term_of(&fields.commands, *command).is_some()
        }
        Event::Release { command } => term_of(&fields.commands, *command).is_some(),
        Event::Lapse => true,
        Event::Send {
            command,
            alias,
            call,
        } => is_declared(&fields.managers, alias) && may_send(fields, *command, alias, call),
        Event::Deliver { message } => is_deliverable(fields, *message),
        Event::GiveUp { .. } => found.why.is_some(),
        Event::Offer { alias } => is_declared(&fields.managers, alias) && found.offer.is_some(),
        Event::Write { command, alias } => {
            is_declared(&fields.managers, alias) && may_write(&fields.commands, *command)
        }
        Event::Tell { .. } => found.told.is_some(),
        Event::Local { alias } => {
            is_declared(&fields.managers, alias) && !is_down(&fields.managers, alias)
        }
        Event::Crash { alias, .. } => is_declared(&fields.managers, alias),
        Event::Restart { alias } => {
            is_declared(&fields.managers, alias) && is_down(&fields.managers, alias)
        }
        Event::Cut { x, y } => is_link(fields, x, y),
        Event::Mend { x, y } => is_link(fields, x, y),
        Event::Lose { message } => fields.post.message(*message).is_some(),
        Event::Tick { ms } => may_tick(fields, *ms),
        Event::End { command, answer } => has_cause_at_once(fields, *command, answer),
    }
}

/// Whether the condition of the event's row holds, where this was found of it. Only the cause of an answer takes memory to tell.
pub(crate) fn meets(fields: &Fields, event: &Event, found: &Found) -> Result<bool, OutOfMemory>
    requires group { AreOfGroup (data_of fields.now) }
    requires found { IsFound (seen (data_of fields.now)) event.now found.now }
    ensures met { IfOk result (λ met. met ≡ meets (config_in (data_of fields.now)) (seen (data_of fields.now)) event.now) }
    ensures at_once { is_told_at_once event.now ≡ true → IsOk result }
{
    match event {
        Event::End { command, answer } => has_cause(fields, *command, answer),
        _ => Ok(meets_at_once(fields, event, found)),
    }
}

/// The number of the event's row in the step table.
pub(crate) fn row_number(event: &Event) -> u8
    ensures { result ≡ row_number event.now }
{
    match event {
        Event::Begin { .. } => 1,
        Event::Take { .. } => 2,
        Event::Read { .. } => 3,
        Event::Intend { .. } => 4,
        Event::Record { .. } => 5,
        Event::Drain { .. } => 6,
        Event::Release { .. } => 7,
        Event::Lapse => 8,
        Event::Send { .. } => 9,
        Event::Deliver { .. } => 10,
        Event::GiveUp { .. } => 11,
        Event::Offer { .. } => 12,
        Event::Write { .. } => 13,
        Event::Tell { .. } => 14,
        Event::Local { .. } => 15,
        Event::Crash { .. } => 16,
        Event::Restart { .. } => 17,
        Event::Cut { .. } => 18,
        Event::Mend { .. } => 18,
        Event::Lose { .. } => 19,
        Event::Tick { .. } => 20,
        Event::End { .. } => 22,
    }
}
