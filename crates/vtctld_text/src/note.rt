ghost use Rattle.std.specs.Prelude.{◌≡◌, ◌+◌, ◌++◌, ◌==◌, OnOk, IfOk};
ghost use Rattle.std.specs.List.{prefix_len};
ghost use Rattle.std.specs.List.Sorted.{IsNonDecreasingBy};
ghost use Rattle.tablet_text.specs.Stands.{line};
ghost use Rattle.vtctld_text.specs.Notes.{no_message_text, not_deliverable_text, is_up_text, is_down_text, action_text, notes_at, note_lines, count_before};

use shard_base::{Items, OutOfMemory};
use shard_calls::Note;
use shard_names::Alias;
use std::alloc::Global;
use tablet_text::write_number;

/// A script action that was refused.
#[derive(Clone, Copy)]
pub enum RefusedAction {
    /// `lose`: there is no message of this number.
    NoMessage { message: u64 },
    /// `repeat`: the message of this number cannot be delivered.
    NotDeliverable { message: u64 },
    /// `restart`: the tablet is up.
    IsUp { alias: Alias },
    /// `local`: the tablet is down.
    IsDown { alias: Alias },
}

#[tactic(auto, unfolding(crate::specs::Notes::no_message_text))]
fn write_no_message(message: u64, into: &mut Vec<u8>) -> Result<(), OutOfMemory>
    ensures { OnOk result (into.new.items ≡ into.old.items ++ no_message_text message) }
{
    into.extend_from_slice(b"lose: no message ")?;
    write_number(message, into)
}

#[tactic(auto, unfolding(crate::specs::Notes::not_deliverable_text))]
fn write_not_deliverable(message: u64, into: &mut Vec<u8>) -> Result<(), OutOfMemory>
    ensures { OnOk result (into.new.items ≡ into.old.items ++ not_deliverable_text message) }
{
    into.extend_from_slice(b"repeat: message ")?;
    write_number(message, into)?;
    into.extend_from_slice(b" cannot be delivered")?;
    Ok(())
}

#[tactic(auto, unfolding(crate::specs::Notes::is_up_text))]
fn write_is_up(alias: &Alias, into: &mut Vec<u8>) -> Result<(), OutOfMemory>
    ensures { OnOk result (into.new.items ≡ into.old.items ++ is_up_text alias.now) }
{
    into.extend_from_slice(b"restart: ")?;
    alias.write(into)?;
    into.extend_from_slice(b" is up")?;
    Ok(())
}

#[tactic(auto, unfolding(crate::specs::Notes::is_down_text))]
fn write_is_down(alias: &Alias, into: &mut Vec<u8>) -> Result<(), OutOfMemory>
    ensures { OnOk result (into.new.items ≡ into.old.items ++ is_down_text alias.now) }
{
    into.extend_from_slice(b"local: ")?;
    alias.write(into)?;
    into.extend_from_slice(b" is down")?;
    Ok(())
}

/// Appends which action was refused, and why.
fn write_action(action: &RefusedAction, into: &mut Vec<u8>) -> Result<(), OutOfMemory>
    ensures { OnOk result (into.new.items ≡ into.old.items ++ action_text action.now) }
{
    match action {
        RefusedAction::NoMessage { message } => write_no_message(*message, into),
        RefusedAction::NotDeliverable { message } => write_not_deliverable(*message, into),
        RefusedAction::IsUp { alias } => write_is_up(alias, into),
        RefusedAction::IsDown { alias } => write_is_down(alias, into),
    }
}

/// The line of a refused action, without a newline.
pub fn action_line(alloc: Global, action: &RefusedAction) -> Result<Items<u8>, OutOfMemory>
    ensures { IfOk result (λ line. line ≡ action_text action.now) }
{
    let mut line = Vec::new(alloc);
    write_action(action, &mut line)?;
    Ok(Items::from_vec(line))
}

/// Appends the line of a note.
fn write_note(note: &Note, into: &mut Vec<u8>) -> Result<(), OutOfMemory>
    ensures { OnOk result (into.new.items ≡ into.old.items ++ line note.now.line) }
{
    into.extend_from_slice(note.line.as_slice())?;
    into.push(b'\n')?;
    Ok(())
}

/// Appends a line for each of these notes.
fn write_notes(notes: &[Note], into: &mut Vec<u8>) -> Result<(), OutOfMemory>
    ensures { OnOk result (into.new.items ≡ into.old.items ++ note_lines notes.now) }
{
    for note in notes {
        write_note(note, into)?;
    }
    Ok(())
}

/// How many of the notes, from the front on, have this place.
fn count_at(notes: &[Note], place: u64) -> usize
    ensures { result ≡ prefix_len (λ n. n.place == place) notes.now }
{
    notes.iter().take_while(|note| note.place == place).count()
}

/// Appends the lines of the notes of a place, before which `done` notes stand. Answers how many stand before the next place.
pub(crate) fn write_notes_at(
    notes: &[Note],
    done: usize,
    place: u64,
    into: &mut Vec<u8>,
) -> Result<usize, OutOfMemory>
    requires never_fall { IsNonDecreasingBy (λ n. n.place) notes.now }
    requires before { done ≡ count_before notes.now place }
    ensures text { OnOk result (into.new.items ≡ into.old.items ++ note_lines (notes_at notes.now place)) }
    ensures next { IfOk result (λ next. next ≡ count_before notes.now (place + 1)) }
{
    let next = done + count_at(&notes[done..], place);
    write_notes(&notes[done..next], into)?;
    Ok(next)
}
