ghost use Rattle.std.specs.Prelude.{◌≡◌, ◌++◌, ◌∷◌, [], IfOk, OnOk};
ghost use Rattle.std.specs.Option.{option_copied};
ghost use Rattle.std.specs.List.{flat_map};
ghost use Rattle.std.specs.List.Sorted.{IsNonDecreasingBy};
ghost use Rattle.shard_calls.specs.World.{numbered};
ghost use Rattle.vtctld_text.specs.Texts.{begun_by, commands_of, event_text, text_of, refuses, has_refusal};
ghost use Rattle.vtctld_text.specs.Notes.{texts_with, text_with, AreInPlace, has_refusal_with};

use crate::answer::{is_refused, write_answer};
use crate::begun::Begun;
use crate::note::write_notes_at;
use shard_base::{Items, OutOfMemory};
use shard_calls::{Command, Event, Note, Step};
use shard_names::{Alias, Name};
use std::alloc::Global;

fn push_begun_command(
    commands: &mut Vec<Begun>,
    actor: Name,
    command: Command,
) -> Result<(), OutOfMemory>
    ensures { OnOk result (commands.new.items ≡ commands.old.items ++ record { actor = actor; command = command } ∷ []) }
{
    let _to: Option<&Option<Alias>> = None;
    let _ignored: Option<&Items<Alias>> = None;
    commands.push(Begun { actor, command })?;
    Ok(())
}

fn push_command(
    commands: &mut Vec<Begun>,
    actor: &Name,
    command: &Command,
) -> Result<(), OutOfMemory>
    ensures { OnOk result (commands.new.items ≡ commands.old.items ++ record { actor = actor.now; command = command.now } ∷ []) }
{
    let command = command.copy()?;
    push_begun_command(commands, *actor, command)
}

/// Adds the command that an event begins, if it does.
fn push_begun(commands: &mut Vec<Begun>, event: &Event) -> Result<(), OutOfMemory>
    ensures { OnOk result (commands.new.items ≡ commands.old.items ++ begun_by event.now) }
{
    match event {
        Event::Begin { actor, command } => push_command(commands, actor, command),
        _ => Ok(()),
    }
}

/// The commands that begin, in order.
pub fn commands_of(alloc: Global, steps: &[Step]) -> Result<Vec<Begun>, OutOfMemory>
    ensures { IfOk result (λ commands. commands.items ≡ commands_of steps.now) }
{
    let mut commands = Vec::new(alloc);
    for step in steps {
        push_begun(&mut commands, &step.event)?;
    }
    Ok(commands)
}

/// The command of a number, counted from 1.
pub fn command_at(commands: &[Begun], number: u64) -> Option<&Begun>
    ensures { option_copied result ≡ numbered commands.now number }
{
    if number == 0 {
        return None;
    }
    commands.get(number as usize - 1)
}

fn write_event(commands: &[Begun], event: &Event, into: &mut Vec<u8>) -> Result<(), OutOfMemory>
    ensures { OnOk result (into.new.items ≡ into.old.items ++ event_text commands.now event.now) }
{
    match event {
        Event::End { command, answer } => {
            write_answer(command_at(commands, *command), answer, into)
        }
        _ => Ok(()),
    }
}

fn write_events(alloc: Global, commands: &[Begun], steps: &[Step]) -> Result<Vec<u8>, OutOfMemory>
    ensures { IfOk result (λ text. text.items ≡ flat_map (λ s. event_text commands.now s.event) steps.now) }
{
    let mut text = Vec::new(alloc);
    for step in steps {
        write_event(commands, &step.event, &mut text)?;
    }
    Ok(text)
}

/// The answer of each command that ended, in order, each in a line of its own, with a line behind it for each tablet that did not join.
pub fn text_of(alloc: Global, steps: &[Step]) -> Result<Vec<u8>, OutOfMemory>
    ensures { IfOk result (λ text. text.items ≡ text_of steps.now) }
{
    let commands = commands_of(alloc, steps)?;
    write_events(alloc, &commands, steps)
}

/// The texts of the steps and the lines of the notes, each behind its step.
fn write_with(
    alloc: Global,
    commands: &[Begun],
    steps: &[Step],
    notes: &[Note],
) -> Result<Vec<u8>, OutOfMemory>
    requires { IsNonDecreasingBy (λ n. n.place) notes.now }
    ensures { IfOk result (λ text. text.items ≡ texts_with commands.now steps.now notes.now) }
{
    let mut text = Vec::new(alloc);
    let mut done = write_notes_at(notes, 0, 0, &mut text)?;
    for (index, step) in steps.iter().enumerate() {
        write_event(commands, &step.event, &mut text)?; // and then its notes
        done = write_notes_at(notes, done, index as u64 + 1, &mut text)?;
    }
    Ok(text)
}

/// As `text_of`, with a line for each script action that was refused, behind the text of the steps that stood before it. Notes of one
/// place are in the order in which they are listed.
pub fn text_with(alloc: Global, steps: &[Step], notes: &[Note]) -> Result<Vec<u8>, OutOfMemory>
    requires { AreInPlace steps.now notes.now }
    ensures { IfOk result (λ text. text.items ≡ text_with steps.now notes.now) }
{
    let commands = commands_of(alloc, steps)?;
    write_with(alloc, &commands, steps, notes)
}

pub(crate) fn refuses(event: &Event) -> bool
    ensures { result ≡ refuses event.now }
{
    match event {
        Event::End { answer, .. } => is_refused(answer),
        _ => false,
    }
}

/// Whether a command that ended was refused: a refused reparent, a `vtorc` that was refused something or left a tablet as it was, or a write
/// that is not committed.
pub fn has_refusal(steps: &[Step]) -> bool
    ensures { result ≡ has_refusal steps.now }
{
    steps.iter().any(|step| refuses(&step.event))
}

/// Whether a command that ended, or an action of the script, was refused.
pub fn has_refusal_with(steps: &[Step], notes: &[Note]) -> bool
    ensures { result ≡ has_refusal_with steps.now notes.now }
{
    has_refusal(steps) || !notes.is_empty()
}
