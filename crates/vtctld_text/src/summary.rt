//! What is said of a large rehearsal.

ghost use Rattle.std.specs.Prelude.{◌≡◌, ◌++◌, OnOk, codes};
ghost use Rattle.std.specs.Fmt.{decimal};
ghost use Rattle.vtctld_text.specs.Summary.{is_end, is_commit, commits, is_ok, ends, ends_refused, intends, ends_committed, ended, refused, intended, committed, terms_word, counted, counts_text, summary_text};

use crate::history::refuses;
use shard_base::OutOfMemory;
use shard_calls::{CommandAnswer, Event, Reply, Step};
use tablet_text::write_number;

fn is_end(event: &Event) -> bool
    ensures { result ≡ is_end event.now }
{
    matches!(event, Event::End { .. })
}

fn is_commit(answer: &CommandAnswer) -> bool
    ensures { result ≡ is_commit answer.now }
{
    matches!(answer, CommandAnswer::Committed { .. })
}

fn commits(event: &Event) -> bool
    ensures { result ≡ commits event.now }
{
    match event {
        Event::End { answer, .. } => is_commit(answer),
        _ => false,
    }
}

fn is_ok(reply: &Reply) -> bool
    ensures { result ≡ is_ok reply.now }
{
    matches!(reply, Reply::Ok)
}

#[tactic(auto, unfolding(crate::specs::Summary::ends))]
fn ends(step: &Step) -> bool
    ensures { result ≡ ends step.now }
{
    is_end(&step.event)
}

#[tactic(auto, unfolding(crate::specs::Summary::ends_refused))]
fn ends_refused(step: &Step) -> bool
    ensures { result ≡ ends_refused step.now }
{
    refuses(&step.event)
}

/// Whether a tablet was intended, and the term intends no other.
#[tactic(auto, unfolding(crate::specs::Summary::intends))]
fn intends(step: &Step) -> bool
    ensures { result ≡ intends step.now }
{
    match &step.event {
        Event::Intend { .. } => is_ok(&step.reply),
        _ => false,
    }
}

#[tactic(auto, unfolding(crate::specs::Summary::ends_committed))]
fn ends_committed(step: &Step) -> bool
    ensures { result ≡ ends_committed step.now }
{
    commits(&step.event)
}

fn ended(steps: &[Step]) -> u64
    ensures { result ≡ ended steps.now }
{
    steps.iter().filter(|step| ends(step)).count() as u64
}

fn refused(steps: &[Step]) -> u64
    ensures { result ≡ refused steps.now }
{
    steps.iter().filter(|step| ends_refused(step)).count() as u64
}

fn intended(steps: &[Step]) -> u64
    ensures { result ≡ intended steps.now }
{
    steps.iter().filter(|step| intends(step)).count() as u64
}

fn committed(steps: &[Step]) -> u64
    ensures { result ≡ committed steps.now }
{
    steps.iter().filter(|step| ends_committed(step)).count() as u64
}

#[tactic(auto, unfolding(crate::specs::Summary::terms_word))]
fn terms_word(count: u64) -> &'static [u8]
    ensures { result.now ≡ terms_word count }
{
    if count == 1 { b" term, " } else { b" terms, " }
}

/// Appends a number, and what so many there are of.
#[tactic(auto, unfolding(crate::specs::Summary::counted))]
fn write_count(count: u64, what: &[u8], into: &mut Vec<u8>) -> Result<(), OutOfMemory>
    ensures { OnOk result (into.new.items ≡ into.old.items ++ counted count what.now) }
{
    write_number(count, into)?;
    into.extend_from_slice(what)?;
    Ok(())
}

/// Appends what is counted in a history.
#[tactic(auto, unfolding(crate::specs::Summary::counts_text))]
fn write_counts(steps: &[Step], into: &mut Vec<u8>) -> Result<(), OutOfMemory>
    ensures { OnOk result (into.new.items ≡ into.old.items ++ counts_text steps.now) }
{
    let terms = intended(steps);
    write_count(ended(steps), b" commands, ", into)?;
    write_count(refused(steps), b" refused, ", into)?;
    write_count(terms, terms_word(terms), into)?;
    write_count(committed(steps), b" committed", into)
}

/// Appends the line that is said of a large rehearsal of so many rounds: how many commands ended, how many of them count as refused, in how many terms
/// a tablet was intended, and how many writes counted as committed.
#[tactic(auto, unfolding(crate::specs::Summary::summary_text))]
pub fn write_summary(rounds: u64, steps: &[Step], into: &mut Vec<u8>) -> Result<(), OutOfMemory>
    ensures { OnOk result (into.new.items ≡ into.old.items ++ summary_text rounds steps.now) }
{
    into.extend_from_slice(b"gen ")?;
    write_count(rounds, b": ", into)?;
    write_counts(steps, into)?;
    into.push(b'\n')?;
    Ok(())
}
