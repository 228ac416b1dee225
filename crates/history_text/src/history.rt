//! The lines of steps.

ghost use Rattle.std.specs.Prelude.{◌≡◌, ◌++◌, OnOk, IfOk, option_map};
ghost use Rattle.std.specs.List.{flat_map};
ghost use Rattle.std.specs.Option.{option_copied};
ghost use Rattle.shard_calls.specs.World.{main_name};
ghost use Rattle.tablet_text.specs.Stands.{line};
ghost use Rattle.vtctld_text.specs.Texts.{answer_text};
ghost use Rattle.history_text.specs.Histories.{but_last, barred, in_one_line, unsigned, ending_text, outcome_text, step_line, opening_text};

use crate::declaration::append_declarations;
use crate::event::append_event;
use crate::reply::append_reply;
use durability::Durability;
use shard_base::{Items, OutOfMemory};
use shard_calls::{Command, CommandAnswer, Event, Reply, Step};
use shard_names::{Alias, Name, ShardName, Tablet};
use vtctld_text::{Begun, command_at, write_answer};

fn but_last(text: &[u8]) -> &[u8]
    ensures { result.now ≡ but_last text.now }
{
    &text[..text.len().saturating_sub(1)]
}

/// Appends a byte, or a bar for a newline.
fn append_barred(into: &mut Vec<u8>, byte: u8) -> Result<(), OutOfMemory>
    ensures { OnOk result (into.new.items ≡ into.old.items ++ barred byte) }
{
    if byte == b'\n' {
        into.extend_from_slice(b" | ")?;
        return Ok(());
    }
    into.push(byte)?;
    Ok(())
}

fn append_all_barred(into: &mut Vec<u8>, text: &[u8]) -> Result<(), OutOfMemory>
    ensures { OnOk result (into.new.items ≡ into.old.items ++ flat_map barred text.now) }
{
    for byte in text {
        append_barred(into, *byte)?;
    }
    Ok(())
}

/// Appends the lines of a text with bars between them.
#[tactic(auto, unfolding(crate::specs::Histories::in_one_line))]
fn append_in_one_line(into: &mut Vec<u8>, text: &[u8]) -> Result<(), OutOfMemory>
    ensures { OnOk result (into.new.items ≡ into.old.items ++ in_one_line text.now) }
{
    append_all_barred(into, but_last(text))
}

fn main_name() -> Name
    ensures { result ≡ main_name }
{
    match Name::from_slice(b"main") {
        Some(name) => name,
        None => unreachable!(),
    }
}

fn unsigned_of(command: Command) -> Begun
    ensures { result ≡ record { actor = main_name; command = command } }
{
    let _to: Option<&Option<Alias>> = None;
    let _ignored: Option<&Items<Alias>> = None;
    Begun {
        actor: main_name(),
        command,
    }
}

/// The same command, given by `main`.
fn unsigned(begun: &Begun) -> Result<Begun, OutOfMemory>
    ensures { IfOk result (λ copy. copy ≡ unsigned begun.now) }
{
    let command = begun.command.copy()?;
    Ok(unsigned_of(command))
}

/// Appends the lines of an answer, none with the name of an actor.
fn append_unsigned(
    into: &mut Vec<u8>,
    begun: Option<&Begun>,
    answer: &CommandAnswer,
) -> Result<(), OutOfMemory>
    ensures { OnOk
        result
        (into.new.items
        ≡ into.old.items ++ answer_text (option_map unsigned (option_copied begun.entry)) answer.now) }
{
    match begun {
        None => write_answer(None, answer, into),
        Some(begun) => {
            let begun = unsigned(begun)?;
            write_answer(Some(&begun), answer, into)
        }
    }
}

/// Appends the lines of an answer to a command in one line, whoever gave it.
#[tactic(auto, unfolding(crate::specs::Histories::ending_text))]
fn append_ending(
    into: &mut Vec<u8>,
    begun: Option<&Begun>,
    answer: &CommandAnswer,
) -> Result<(), OutOfMemory>
    ensures { OnOk result (into.new.items ≡ into.old.items ++ ending_text (option_copied begun.entry) answer.now) }
{
    let mut text = Vec::new(*into.allocator());
    append_unsigned(&mut text, begun, answer)?;
    append_in_one_line(into, text.as_slice())
}

/// Appends what came of an event, where these commands have begun.
fn append_outcome(
    into: &mut Vec<u8>,
    commands: &[Begun],
    event: &Event,
    reply: &Reply,
) -> Result<(), OutOfMemory>
    ensures { OnOk result (into.new.items ≡ into.old.items ++ outcome_text commands.now event.now reply.now) }
{
    match event {
        Event::End { command, answer } => {
            append_ending(into, command_at(commands, *command), answer)
        }
        _ => append_reply(into, reply),
    }
}

#[tactic(auto, unfolding(crate::specs::Histories::step_line))]
fn append_step_text(into: &mut Vec<u8>, commands: &[Begun], step: &Step) -> Result<(), OutOfMemory>
    ensures { OnOk result (into.new.items ≡ into.old.items ++ step_line commands.now step.now) }
{
    append_event(into, &step.event)?;
    into.extend_from_slice(b" = ")?;
    append_outcome(into, commands, &step.event, &step.reply)
}

/// Appends the line of a step, where these commands have begun: the event, and the reply, or the answer with which a command ends.
pub fn append_step(into: &mut Vec<u8>, commands: &[Begun], step: &Step) -> Result<(), OutOfMemory>
    ensures { OnOk result (into.new.items ≡ into.old.items ++ line (step_line commands.now step.now)) }
{
    append_step_text(into, commands, step)?;
    into.push(b'\n')?;
    Ok(())
}

/// Appends what stands before the lines of the steps: the lines that declare a shard, if there is one, and the line `history`. The shard has
/// its name and policy, its tablets as they are listed, and the moment with which the clock begins, in milliseconds since the start of 1970.
#[tactic(auto, unfolding(crate::specs::Histories::opening_text))]
pub fn append_opening(
    into: &mut Vec<u8>,
    shard: &Option<ShardName>,
    policy: &Durability,
    tablets: &[Tablet],
    moment: u64,
) -> Result<(), OutOfMemory>
    ensures { OnOk result (into.new.items ≡ into.old.items ++ opening_text shard.now policy.now tablets.now moment) }
{
    append_declarations(into, shard, policy, tablets, moment)?;
    into.extend_from_slice(b"history\n")?;
    Ok(())
}
