//! The texts of replies.

ghost use Rattle.std.specs.Prelude.{◌≡◌, ◌++◌, OnOk};
ghost use Rattle.history_text.specs.Replies.{record_text, recorded_text, intent_text, intended_text, drained_text, seen_text, taken_text, wrote_text, stand_text, reply_text};

use crate::event::{append_numbered, append_tablet_event};
use crate::order::append_aliases;
use gtid_sets::Gtid;
use itoa::Buffer;
use shard_base::{OutOfMemory, append_pieces};
use shard_calls::{Reply, Seen, Standing};
use shard_names::Alias;
use tablet_text::{write_moment, write_number, write_standing, write_why};
use topo_lock::{Intent, Record};

#[tactic(auto, unfolding(crate::specs::Replies::record_text))]
fn append_record(into: &mut Vec<u8>, recorded: &Record) -> Result<(), OutOfMemory>
    ensures { OnOk result (into.new.items ≡ into.old.items ++ record_text recorded.now) }
{
    recorded.alias.write(into)?;
    into.extend_from_slice(b",")?;
    write_number(recorded.term, into)?;
    into.extend_from_slice(b",")?;
    write_moment(recorded.moment, into)
}

/// Appends the record of the primary, or a dash.
fn append_recorded(into: &mut Vec<u8>, recorded: &Option<Record>) -> Result<(), OutOfMemory>
    ensures { OnOk result (into.new.items ≡ into.old.items ++ recorded_text recorded.now) }
{
    match recorded {
        None => {
            into.extend_from_slice(b"-")?;
            Ok(())
        }
        Some(record) => append_record(into, record),
    }
}

#[tactic(auto, unfolding(crate::specs::Replies::intent_text))]
fn append_intent(into: &mut Vec<u8>, intent: &Intent) -> Result<(), OutOfMemory>
    ensures { OnOk result (into.new.items ≡ into.old.items ++ intent_text intent.now) }
{
    write_number(intent.term, into)?;
    into.extend_from_slice(b",")?;
    intent.alias.write(into)?;
    Ok(())
}

/// Appends the last intent, or a dash.
fn append_intended(into: &mut Vec<u8>, intent: &Option<Intent>) -> Result<(), OutOfMemory>
    ensures { OnOk result (into.new.items ≡ into.old.items ++ intended_text intent.now) }
{
    match intent {
        None => {
            into.extend_from_slice(b"-")?;
            Ok(())
        }
        Some(intent) => append_intent(into, intent),
    }
}

/// Appends the tablets that are marked as drained, or a dash.
fn append_drained(into: &mut Vec<u8>, drained: &[Alias]) -> Result<(), OutOfMemory>
    ensures { OnOk result (into.new.items ≡ into.old.items ++ drained_text drained.now) }
{
    match drained {
        [] => {
            into.extend_from_slice(b"-")?;
            Ok(())
        }
        [..] => append_aliases(into, drained),
    }
}

#[tactic(auto, unfolding(crate::specs::Replies::seen_text))]
fn append_seen(into: &mut Vec<u8>, seen: &Seen) -> Result<(), OutOfMemory>
    ensures { OnOk result (into.new.items ≡ into.old.items ++ seen_text seen.now) }
{
    into.extend_from_slice(b"record ")?;
    append_recorded(into, &seen.recorded)?;
    into.extend_from_slice(b" intent ")?;
    append_intended(into, &seen.intent)?;
    into.extend_from_slice(b" drained ")?;
    append_drained(into, seen.drained.as_slice())
}

#[tactic(auto, unfolding(crate::specs::Replies::taken_text))]
fn append_taken(into: &mut Vec<u8>, term: u64, actor: &[u8]) -> Result<(), OutOfMemory>
    ensures { OnOk result (into.new.items ≡ into.old.items ++ taken_text term actor.now) }
{
    let mut digits = Buffer::new();
    let term = digits.format(term).as_bytes();
    append_pieces(into, &[b"taken ".as_slice(), term, b" ", actor])
}

#[tactic(auto, unfolding(crate::specs::Replies::wrote_text))]
fn append_wrote(into: &mut Vec<u8>, gtid: &Gtid) -> Result<(), OutOfMemory>
    ensures { OnOk result (into.new.items ≡ into.old.items ++ wrote_text gtid.now) }
{
    into.extend_from_slice(b"wrote ")?;
    gtid.write(into)?;
    Ok(())
}

#[tactic(auto, unfolding(crate::specs::Replies::stand_text))]
fn append_stand(into: &mut Vec<u8>, stand: &Standing) -> Result<(), OutOfMemory>
    ensures { OnOk result (into.new.items ≡ into.old.items ++ stand_text stand.now) }
{
    into.extend_from_slice(b"stand ")?;
    write_standing(stand, into)
}

/// Appends what the machine replied.
pub(crate) fn append_reply(into: &mut Vec<u8>, reply: &Reply) -> Result<(), OutOfMemory>
    ensures { OnOk result (into.new.items ≡ into.old.items ++ reply_text reply.now) }
{
    match reply {
        Reply::Begun { command } => append_numbered(into, b"command ", *command),
        Reply::Term { term } => append_numbered(into, b"term ", *term),
        Reply::Taken { term, actor } => append_taken(into, *term, actor.as_slice()),
        Reply::Read(seen) => append_seen(into, seen),
        Reply::Lost { term } => append_numbered(into, b"lost ", *term),
        Reply::Stands { alias } => append_tablet_event(into, b"stands ", alias),
        Reply::Message { message } => append_numbered(into, b"message ", *message),
        Reply::GaveUp(why) => write_why(why, into),
        Reply::Wrote { gtid } => append_wrote(into, gtid),
        Reply::NotPrimary { stand } => append_stand(into, stand),
        Reply::Told => {
            into.extend_from_slice(b"told")?;
            Ok(())
        }
        Reply::Gone => {
            into.extend_from_slice(b"gone")?;
            Ok(())
        }
        Reply::Ok => {
            into.extend_from_slice(b"ok")?;
            Ok(())
        }
    }
}
