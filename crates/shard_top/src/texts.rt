//! The lines that are printed of a stop and of a rehearsal, and the exit status.

ghost use Rattle.std.specs.Prelude.{◌≡◌, ◌<◌, ◌⊎◌, ◌++◌, IfOk, OnOk};
ghost use Rattle.std.specs.Fmt.{decimal};
ghost use Rattle.vtctld_text.specs.Summary.{summary_text};
ghost use Rattle.shard_top.specs.Texts.{blocked_text, full_text, stop_text, status_of, usage_text, fault_text, read_fault_text};
ghost use Rattle.shard_top.specs.declared.player.Stop.TheVariants as stops;

use crate::player::Stop;
use itoa::Buffer;
use script_faults::Fault;
use shard_base::OutOfMemory;
use shard_calls::{Note, Step};
use std::alloc::Global;
use vtctld_text::{has_refusal_with, write_summary};

/// Appends the decimal digits.
fn write_number(number: u64, into: &mut Vec<u8>) -> Result<(), OutOfMemory>
    ensures { OnOk result (into.new.items ≡ into.old.items ++ decimal number) }
{
    let mut buffer = Buffer::new();
    into.extend_from_slice(buffer.format(number).as_bytes())?;
    Ok(())
}

#[tactic(auto, unfolding(crate::specs::Texts::blocked_text))]
fn write_blocked(name: &[u8], into: &mut Vec<u8>) -> Result<(), OutOfMemory>
    ensures { OnOk result (into.new.items ≡ into.old.items ++ blocked_text name.now) }
{
    into.extend_from_slice(b"blocked: ")?;
    into.extend_from_slice(name)?;
    into.push(b'\n')?;
    Ok(())
}

#[tactic(auto, unfolding(crate::specs::Texts::full_text))]
fn write_full(into: &mut Vec<u8>) -> Result<(), OutOfMemory>
    ensures { OnOk result (into.new.items ≡ into.old.items ++ full_text) }
{
    into.extend_from_slice(b"too many events\n")?;
    Ok(())
}

fn write_stop(stop: &Stop, into: &mut Vec<u8>) -> Result<(), OutOfMemory>
    ensures { OnOk result (into.new.items ≡ into.old.items ++ stop_text stop.now) }
{
    match stop {
        Stop::Over => Ok(()),
        Stop::Blocked { name } => write_blocked(name.as_slice(), into),
        Stop::Full => write_full(into),
    }
}

/// The line of a rehearsal of so many rounds.
pub(crate) fn summary_of(alloc: Global, rounds: u64, steps: &[Step]) -> Result<Vec<u8>, OutOfMemory>
    ensures { IfOk result (λ text. text.items ≡ summary_text rounds steps.now) }
{
    let mut text = Vec::new(alloc);
    write_summary(rounds, steps, &mut text)?;
    Ok(text)
}

/// Why a run stops, if it is not over.
pub(crate) fn stop_of(alloc: Global, stop: &Stop) -> Result<Vec<u8>, OutOfMemory>
    ensures { IfOk result (λ text. text.items ≡ stop_text stop.now) }
{
    let mut text = Vec::new(alloc);
    write_stop(stop, &mut text)?;
    Ok(text)
}

/// The status of a history that was played to its end.
fn status_over(steps: &[Step], notes: &[Note]) -> u8
    ensures status { result ≡ status_of stops.Over steps.now notes.now }
    ensures small { result < 2 }
{
    if has_refusal_with(steps, notes) { 1 } else { 0 }
}

/// The status of a history that was played to this stop.
pub fn status_of(stop: &Stop, steps: &[Step], notes: &[Note]) -> u8
    ensures status { result ≡ status_of stop.now steps.now notes.now }
    ensures not_streams { (result < 2) ⊎ (6 < result) }
{
    match stop {
        Stop::Over => status_over(steps, notes),
        Stop::Blocked { .. } => 7,
        Stop::Full => 8,
    }
}

/// What is said of words without a reading.
#[tactic(auto, unfolding(crate::specs::Texts::usage_text))]
pub fn usage_text(alloc: Global, word: &[u8]) -> Result<Vec<u8>, OutOfMemory>
    ensures { IfOk result (λ text. text.items ≡ usage_text word.now) }
{
    let mut text = Vec::new(alloc);
    text.extend_from_slice(b"usage fault: ")?;
    text.extend_from_slice(word)?;
    text.push(b'\n')?;
    Ok(text)
}

/// What is said of a script without a reading: the first line that may not stand there, and its fault.
#[tactic(auto, unfolding(crate::specs::Texts::fault_text))]
pub fn fault_text(alloc: Global, line: u64, fault: Fault) -> Result<Vec<u8>, OutOfMemory>
    ensures { IfOk result (λ text. text.items ≡ fault_text line fault) }
{
    let mut text = Vec::new(alloc);
    text.extend_from_slice(b"script fault: line ")?;
    write_number(line, &mut text)?;
    text.extend_from_slice(b" code ")?;
    write_number(fault.code() as u64, &mut text)?;
    text.push(b'\n')?;
    Ok(text)
}

/// What is said of a source that failed.
#[tactic(auto, unfolding(crate::specs::Texts::read_fault_text))]
pub fn read_fault_text(alloc: Global) -> Result<Vec<u8>, OutOfMemory>
    ensures { IfOk result (λ text. text.items ≡ read_fault_text) }
{
    Ok(Vec::from_slice(alloc, b"read fault\n")?)
}
