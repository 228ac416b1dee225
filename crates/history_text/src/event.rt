//! The texts of events.

ghost use Rattle.std.specs.Prelude.{◌≡◌, ◌++◌, OnOk};
ghost use Rattle.history_text.specs.Events.{numbered_text, tablet_event_text, command_event_text, shown_set, promote_text, set_source_text, wait_for_text, wait_told_text, call_text, begin_event_text, send_text, give_up_text, crash_text, side_text, link_text, happening_text};

use crate::order::append_order;
use gtid_sets::{GtidSet, write_set};
use itoa::Buffer;
use shard_base::{OutOfMemory, append_pieces};
use shard_calls::{Call, Command, Event, Side};
use shard_names::Alias;
use tablet_text::{write_moment, write_number};

/// Appends a word and a number.
#[tactic(auto, unfolding(crate::specs::Events::numbered_text))]
pub(crate) fn append_numbered(
    into: &mut Vec<u8>,
    word: &[u8],
    number: u64,
) -> Result<(), OutOfMemory>
    ensures { OnOk result (into.new.items ≡ into.old.items ++ numbered_text word.now number) }
{
    let mut digits = Buffer::new();
    append_pieces(into, &[word, digits.format(number).as_bytes()])
}

/// Appends a word and a tablet.
#[tactic(auto, unfolding(crate::specs::Events::tablet_event_text))]
pub(crate) fn append_tablet_event(
    into: &mut Vec<u8>,
    word: &[u8],
    alias: &Alias,
) -> Result<(), OutOfMemory>
    ensures { OnOk result (into.new.items ≡ into.old.items ++ tablet_event_text word.now alias.now) }
{
    into.extend_from_slice(word)?;
    alias.write(into)?;
    Ok(())
}

/// Appends a word, a command and a tablet.
#[tactic(auto, unfolding(crate::specs::Events::command_event_text))]
fn append_command_event(
    into: &mut Vec<u8>,
    word: &[u8],
    command: u64,
    alias: &Alias,
) -> Result<(), OutOfMemory>
    ensures { OnOk result (into.new.items ≡ into.old.items ++ command_event_text word.now command alias.now) }
{
    into.extend_from_slice(word)?;
    write_number(command, into)?;
    into.extend_from_slice(b" ")?;
    alias.write(into)?;
    Ok(())
}

/// Appends a set, or a dash for the empty one.
fn append_set(into: &mut Vec<u8>, set: &GtidSet) -> Result<(), OutOfMemory>
    ensures { OnOk result (into.new.items ≡ into.old.items ++ shown_set set.now) }
{
    if set.count() == 0 {
        into.extend_from_slice(b"-")?;
        return Ok(());
    }
    write_set(set, into)?;
    Ok(())
}

#[tactic(auto, unfolding(crate::specs::Events::promote_text))]
fn append_promote(into: &mut Vec<u8>, position: &GtidSet) -> Result<(), OutOfMemory>
    ensures { OnOk result (into.new.items ≡ into.old.items ++ promote_text position.now) }
{
    into.extend_from_slice(b"promote ")?;
    append_set(into, position)
}

#[tactic(auto, unfolding(crate::specs::Events::set_source_text))]
fn append_set_source(
    into: &mut Vec<u8>,
    source: &Alias,
    stand: u64,
    position: &GtidSet,
) -> Result<(), OutOfMemory>
    ensures { OnOk result (into.new.items ≡ into.old.items ++ set_source_text source.now stand position.now) }
{
    into.extend_from_slice(b"setsource ")?;
    source.write(into)?;
    into.extend_from_slice(b" ")?;
    write_number(stand, into)?;
    into.extend_from_slice(b" ")?;
    append_set(into, position)
}

#[tactic(auto, unfolding(crate::specs::Events::wait_for_text))]
fn append_wait_for(into: &mut Vec<u8>, position: &GtidSet, until: u64) -> Result<(), OutOfMemory>
    ensures { OnOk result (into.new.items ≡ into.old.items ++ wait_for_text position.now until) }
{
    into.extend_from_slice(b"waitfor ")?;
    append_set(into, position)?;
    into.extend_from_slice(b" ")?;
    write_moment(until, into)
}

#[tactic(auto, unfolding(crate::specs::Events::wait_told_text))]
fn append_wait_told(into: &mut Vec<u8>, until: u64) -> Result<(), OutOfMemory>
    ensures { OnOk result (into.new.items ≡ into.old.items ++ wait_told_text until) }
{
    into.extend_from_slice(b"waittold ")?;
    write_moment(until, into)
}

fn append_call(into: &mut Vec<u8>, call: &Call) -> Result<(), OutOfMemory>
    ensures { OnOk result (into.new.items ≡ into.old.items ++ call_text call.now) }
{
    match call {
        Call::Status => {
            into.extend_from_slice(b"status")?;
            Ok(())
        }
        Call::Stop => {
            into.extend_from_slice(b"stop")?;
            Ok(())
        }
        Call::Demote => {
            into.extend_from_slice(b"demote")?;
            Ok(())
        }
        Call::Promote { position } => append_promote(into, position),
        Call::SetSource {
            source,
            stand,
            position,
        } => append_set_source(into, source, *stand, position),
        Call::Feed => {
            into.extend_from_slice(b"feed")?;
            Ok(())
        }
        Call::WaitFor { position, until } => append_wait_for(into, position, *until),
        Call::WaitTold { until } => append_wait_told(into, *until),
    }
}

#[tactic(auto, unfolding(crate::specs::Events::begin_event_text))]
fn append_begin(into: &mut Vec<u8>, actor: &[u8], command: &Command) -> Result<(), OutOfMemory>
    ensures { OnOk result (into.new.items ≡ into.old.items ++ begin_event_text actor.now command.now) }
{
    into.extend_from_slice(b"begin ")?;
    into.extend_from_slice(actor)?;
    into.extend_from_slice(b" ")?;
    append_order(into, command)
}

#[tactic(auto, unfolding(crate::specs::Events::send_text))]
fn append_send(
    into: &mut Vec<u8>,
    command: u64,
    alias: &Alias,
    call: &Call,
) -> Result<(), OutOfMemory>
    ensures { OnOk result (into.new.items ≡ into.old.items ++ send_text command alias.now call.now) }
{
    append_command_event(into, b"send ", command, alias)?;
    into.extend_from_slice(b" ")?;
    append_call(into, call)
}

/// Appends that a command gave up the call of a message.
#[tactic(auto, unfolding(crate::specs::Events::give_up_text))]
fn append_give_up(into: &mut Vec<u8>, command: u64, message: u64) -> Result<(), OutOfMemory>
    ensures { OnOk result (into.new.items ≡ into.old.items ++ give_up_text command message) }
{
    let mut digits = Buffer::new();
    let command = digits.format(command).as_bytes();
    let mut digits = Buffer::new();
    let message = digits.format(message).as_bytes();
    append_pieces(into, &[b"giveup ".as_slice(), command, b" ", message])
}

#[tactic(auto, unfolding(crate::specs::Events::crash_text))]
fn append_crash(into: &mut Vec<u8>, alias: &Alias, keep: u64) -> Result<(), OutOfMemory>
    ensures { OnOk result (into.new.items ≡ into.old.items ++ crash_text alias.now keep) }
{
    into.extend_from_slice(b"crash ")?;
    alias.write(into)?;
    into.extend_from_slice(b" ")?;
    write_number(keep, into)
}

fn append_side(into: &mut Vec<u8>, side: &Side) -> Result<(), OutOfMemory>
    ensures { OnOk result (into.new.items ≡ into.old.items ++ side_text side.now) }
{
    match side {
        Side::Control => {
            into.extend_from_slice(b"control")?;
            Ok(())
        }
        Side::Tablet { alias } => alias.write(into),
    }
}

/// Appends a word and the ends of a link.
#[tactic(auto, unfolding(crate::specs::Events::link_text))]
fn append_link(into: &mut Vec<u8>, word: &[u8], x: &Side, y: &Side) -> Result<(), OutOfMemory>
    ensures { OnOk result (into.new.items ≡ into.old.items ++ link_text word.now x.now y.now) }
{
    into.extend_from_slice(word)?;
    append_side(into, x)?;
    into.extend_from_slice(b" ")?;
    append_side(into, y)
}

/// Appends what happened.
pub(crate) fn append_event(into: &mut Vec<u8>, event: &Event) -> Result<(), OutOfMemory>
    ensures { OnOk result (into.new.items ≡ into.old.items ++ happening_text event.now) }
{
    match event {
        Event::Begin { actor, command } => append_begin(into, actor.as_slice(), command),
        Event::Take { command } => append_numbered(into, b"take ", *command),
        Event::Read { command } => append_numbered(into, b"read ", *command),
        Event::Intend { command, alias } => {
            append_command_event(into, b"intend ", *command, alias)
        }
        Event::Record { command, alias } => {
            append_command_event(into, b"record ", *command, alias)
        }
        Event::Drain { command, alias } => append_command_event(into, b"drain ", *command, alias),
        Event::Release { command } => append_numbered(into, b"release ", *command),
        Event::Lapse => {
            into.extend_from_slice(b"lapse")?;
            Ok(())
        }
        Event::Send {
            command,
            alias,
            call,
        } => append_send(into, *command, alias, call),
        Event::Deliver { message } => append_numbered(into, b"deliver ", *message),
        Event::GiveUp { command, message } => append_give_up(into, *command, *message),
        Event::Offer { alias } => append_tablet_event(into, b"offer ", alias),
        Event::Write { command, alias } => append_command_event(into, b"write ", *command, alias),
        Event::Tell { command } => append_numbered(into, b"tell ", *command),
        Event::Local { alias } => append_tablet_event(into, b"local ", alias),
        Event::Crash { alias, keep } => append_crash(into, alias, *keep),
        Event::Restart { alias } => append_tablet_event(into, b"restart ", alias),
        Event::Cut { x, y } => append_link(into, b"cut ", x, y),
        Event::Mend { x, y } => append_link(into, b"mend ", x, y),
        Event::Lose { message } => append_numbered(into, b"lose ", *message),
        Event::Tick { ms } => append_numbered(into, b"tick ", *ms),
        Event::End { command, .. } => append_numbered(into, b"end ", *command),
    }
}
