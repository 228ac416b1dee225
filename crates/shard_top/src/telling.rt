//! What is told of a history, put into the sink piece by piece: a line for each step is not kept.

ghost use Rattle.std.specs.Prelude.{◌≡◌, ◌++◌, ℕ, List, IfOk};
ghost use Rattle.tablet_text.specs.Stands.{line};
ghost use Rattle.vtctld_text.specs.Notes.{AreInPlace};
ghost use Rattle.vtctld_text.specs.Texts.{commands_of};
ghost use Rattle.history_text.specs.Histories.{opening_text, step_line, step_lines};
ghost use Rattle.shard_top.specs.Played.{begins_at};
ghost use Rattle.shard_top.specs.Streams.{IsPut, put_status};
ghost use Rattle.shard_top.specs.Texts.{told_of, stop_text};
ghost use Rattle.shard_top.specs.declared.words.Asked.TheVariants as asks;

use crate::player::Stop;
use crate::playing::begins_at;
use crate::sink::{Sink, put_all};
use crate::texts::{stop_of, summary_of};
use crate::words::Asked;
use history_text::{append_opening, append_step};
use shard_base::OutOfMemory;
use shard_calls::{Note, Step};
use shard_script::Script;
use std::alloc::Global;
use vtctld_text::{Begun, commands_of, text_with};

/// Why a text was not put whole.
#[derive(Clone, Copy)]
pub(crate) enum PutFault {
    Sink,
    OutOfMemory,
}

/// Puts a text, if there was memory for it.
fn put_text<O: Sink>(sink: &mut O, text: Result<Vec<u8>, OutOfMemory>) -> Result<(), PutFault>
    ensures { (bytes : List ℕ) → IfOk text (λ t. t.items ≡ bytes)
        → IsPut result (O.taken sink.old) (O.taken sink.new) (O.faults sink.old) (O.faults sink.new) bytes }
{
    match text {
        Err(_) => Err(PutFault::OutOfMemory),
        Ok(text) => match put_all(sink, &text) {
            Ok(()) => Ok(()),
            Err(_) => Err(PutFault::Sink),
        },
    }
}

/// What stands before the lines of steps.
fn opening_of(alloc: Global, script: &Script) -> Result<Vec<u8>, OutOfMemory>
    ensures { IfOk result (λ text. text.items ≡ opening_text script.now.shard script.now.policy script.now.tablets (begins_at script.now)) }
{
    let mut text = Vec::new(alloc);
    let tablets = script.tablets.as_slice();
    let moment = begins_at(script);
    append_opening(&mut text, &script.shard, &script.policy, tablets, moment)?;
    Ok(text)
}

/// The line of a step, where these commands have begun.
fn line_of(alloc: Global, commands: &[Begun], step: &Step) -> Result<Vec<u8>, OutOfMemory>
    ensures { IfOk result (λ text. text.items ≡ line (step_line commands.now step.now)) }
{
    let mut text = Vec::new(alloc);
    append_step(&mut text, commands, step)?;
    Ok(text)
}

fn put_step<O: Sink>(
    alloc: Global,
    sink: &mut O,
    commands: &[Begun],
    step: &Step,
) -> Result<(), PutFault>
    ensures { IsPut result (O.taken sink.old) (O.taken sink.new) (O.faults sink.old) (O.faults sink.new) (line (step_line commands.now step.now)) }
{
    let text = line_of(alloc, commands, step);
    put_text(sink, text)
}

/// Puts a line for each step, where these commands have begun.
fn put_steps<O: Sink>(
    alloc: Global,
    sink: &mut O,
    commands: &[Begun],
    steps: &[Step],
) -> Result<(), PutFault>
    ensures { IsPut result (O.taken sink.old) (O.taken sink.new) (O.faults sink.old) (O.faults sink.new) (step_lines commands.now steps.now) }
{
    for step in steps {
        if let Err(fault) = put_step(alloc, sink, commands, step) {
            return Err(fault);
        }
    }
    Ok(())
}

/// Puts a line for each step of a history.
fn put_all_steps<O: Sink>(alloc: Global, sink: &mut O, steps: &[Step]) -> Result<(), PutFault>
    ensures { IsPut result (O.taken sink.old) (O.taken sink.new) (O.faults sink.old) (O.faults sink.new) (step_lines (commands_of steps.now) steps.now) }
{
    match commands_of(alloc, steps) {
        Ok(commands) => put_steps(alloc, sink, &commands, steps),
        Err(_) => Err(PutFault::OutOfMemory),
    }
}

/// Puts what a script declares, and each step of its history.
fn put_history<O: Sink>(
    alloc: Global,
    sink: &mut O,
    script: &Script,
    steps: &[Step],
) -> Result<(), PutFault>
    ensures { (notes : List Note) → IsPut result (O.taken sink.old) (O.taken sink.new) (O.faults sink.old) (O.faults sink.new) (told_of asks.History script.now steps.now notes) }
{
    let opening = opening_of(alloc, script);
    match put_text(sink, opening) {
        Ok(()) => put_all_steps(alloc, sink, steps),
        Err(fault) => Err(fault),
    }
}

/// Puts what is told of the history of a script, with its notes.
fn put_told<O: Sink>(
    alloc: Global,
    sink: &mut O,
    asked: Asked,
    script: &Script,
    steps: &[Step],
    notes: &[Note],
) -> Result<(), PutFault>
    requires { AreInPlace steps.now notes.now }
    ensures { IsPut result (O.taken sink.old) (O.taken sink.new) (O.faults sink.old) (O.faults sink.new) (told_of asked script.now steps.now notes.now) }
{
    match asked {
        Asked::Step => put_text(sink, text_with(alloc, steps, notes)),
        Asked::History => put_history(alloc, sink, script, steps),
        Asked::Gen { rounds } => put_text(sink, summary_of(alloc, rounds, steps)),
    }
}

/// Puts what is told of the history of a script with its notes, and behind it why the run stops, if it is not over.
pub(crate) fn put_run<O: Sink>(
    alloc: Global,
    sink: &mut O,
    asked: Asked,
    script: &Script,
    steps: &[Step],
    notes: &[Note],
    stop: &Stop,
) -> Result<(), PutFault>
    requires { AreInPlace steps.now notes.now }
    ensures { IsPut result (O.taken sink.old) (O.taken sink.new) (O.faults sink.old) (O.faults sink.new) (told_of asked script.now steps.now notes.now ++ stop_text stop.now) }
{
    match put_told(alloc, sink, asked, script, steps, notes) {
        Ok(()) => put_text(sink, stop_of(alloc, stop)),
        Err(fault) => Err(fault),
    }
}

/// The status: 5 where the sink failed, 6 for want of memory.
pub(crate) fn put_status(put: Result<(), PutFault>, status: u8) -> u8
    ensures { result ≡ put_status put status }
{
    match put {
        Ok(()) => status,
        Err(PutFault::Sink) => 5,
        Err(PutFault::OutOfMemory) => 6,
    }
}
