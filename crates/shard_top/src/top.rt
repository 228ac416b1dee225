//! The top calls: words and a source of text in, bytes and a status out.

ghost use Rattle.std.specs.Prelude.{◌≡◌, ◌≢◌, ◌≤◌, ◌<◌, ◌++◌, [], List, ℕ, false, true, map, IsOkAnd, IsSome, MatchResult, length};
ghost use Rattle.std.specs.Io.KnownBytes.{Appends, IsAtEnd};
ghost use Rattle.shard_base.specs.Faults.{Rose, Calm};
ghost use Rattle.shard_calls.specs.World.{Config};
ghost use Rattle.shard_script.specs.Script.{Fits};
ghost use Rattle.shard_script.specs.Generator.{generated};
ghost use Rattle.shard_top.specs.Streams.{AppendsFront, WasRead};
ghost use Rattle.vtctld_text.specs.Notes.{AreInPlace};
ghost use Rattle.shard_top.specs.Texts.{told_of, read_fault_text, stop_text, status_of};
ghost use Rattle.shard_top.specs.declared.words.Asked.TheVariants as asks;
ghost use Rattle.shard_top.specs.Words.{usage_fault, reads_source};
ghost use Rattle.shard_top.specs.Program.{Answer, IsAnswerOf, IsAnswerToText, IsAnswerTo, Answers};
ghost use Rattle.shard_laws.specs.Safe.{IsSafe};

use crate::player::Stop;
use crate::playing::{begins_at, play};
use crate::sink::{Sink, put_all};
use crate::source::{ReadFault, Source, read_all};
use crate::telling::{put_run, put_status};
use crate::texts::{fault_text, read_fault_text, status_of, usage_text};
use crate::words::{Asked, words_reading};
use shard_base::OutOfMemory;
use shard_calls::History;
use shard_core::Shard;
use shard_script::{Script, ScriptFault, generate, read_text};
use std::alloc::Global;

/// How the program ended, and the history that it kept.
#[derive(Drop)]
pub struct Outcome {
    /// The exit status: 0 where all went well; 1 where a command that ended was refused; 2 for words, 3 for a script without a
    /// reading; 4 where the source failed, 5 where the sink failed; 6 for want of memory; 7 where a command that was to go on until it
    /// ends had nothing to do; 8 where a further event or note would be more than a history has.
    pub status: u8,
    pub history: History,
}

fn ended(alloc: Global, status: u8) -> Outcome
    ensures status { result.status ≡ status }
    ensures empty { result.history.steps.items ≡ [] }
    ensures unnoted { result.history.notes.items ≡ [] }
{
    Outcome {
        status,
        history: History {
            steps: Vec::new(alloc),
            notes: Vec::new(alloc),
        },
    }
}

/// Puts a text, if there was memory for it, and answers the status: 5 where the sink failed, 6 for want of memory.
fn say<O: Sink>(sink: &mut O, text: Result<Vec<u8>, OutOfMemory>, status: u8) -> u8
    requires not_sink { status ≢ 5 }
    requires not_memory { status ≢ 6 }
    ensures said { Calm (O.faults sink.old) (O.faults sink.new) → result ≢ 6 → IsOkAnd text (λ t. (result ≡ status) × Appends (O.taken sink.old) (O.taken sink.new) t.items) }
    ensures whole { result ≡ status → IsOkAnd text (λ t. Appends (O.taken sink.old) (O.taken sink.new) t.items) }
    ensures part { MatchResult text (λ t. AppendsFront (O.taken sink.old) (O.taken sink.new) t.items) (λ _. O.taken sink.new ≡ O.taken sink.old) }
    ensures cause { result ≡ 5 → Rose (O.faults sink.old) (O.faults sink.new) }
    ensures failed { O.faults sink.old < O.faults sink.new → result ≡ 5 }
    ensures other { result ≢ status → 5 ≤ result }
    ensures least { status < 5 → status ≤ result }
    ensures most { status < 5 → result ≤ 6 }
{
    match text {
        Err(_) => 6,
        Ok(text) => match put_all(sink, &text) {
            Ok(()) => status,
            Err(_) => 5,
        },
    }
}

/// Writes what is told of a history with its notes, and why its run stopped.
fn tell<O: Sink>(
    alloc: Global,
    asked: Asked,
    script: &Script,
    history: History,
    stop: &Stop,
    output: &mut O,
) -> Outcome
    requires { AreInPlace history.steps.items history.notes.items }
    ensures kept { result.history.steps.items ≡ history.steps.items }
    ensures kept_notes { result.history.notes.items ≡ history.notes.items }
    ensures said { Calm (O.faults output.old) (O.faults output.new) → result.status ≢ 6
        → (result.status ≡ status_of stop.now history.steps.items history.notes.items)
        × Appends (O.taken output.old) (O.taken output.new) (told_of asked script.now history.steps.items history.notes.items ++ stop_text stop.now) }
    ensures part { AppendsFront (O.taken output.old) (O.taken output.new) (told_of asked script.now history.steps.items history.notes.items ++ stop_text stop.now) }
    ensures cause { result.status ≡ 5 → Rose (O.faults output.old) (O.faults output.new) }
    ensures failed { O.faults output.old < O.faults output.new → result.status ≡ 5 }
    ensures not_read { result.status ≢ 4 }
{
    let done = status_of(stop, &history.steps, &history.notes);
    let put = put_run(
        alloc,
        output,
        asked,
        script,
        &history.steps,
        &history.notes,
        stop,
    );
    let status = put_status(put, done);
    Outcome { status, history }
}

/// Plays a script, and writes what comes of it.
fn run_script<O: Sink>(alloc: Global, asked: Asked, script: &Script, output: &mut O) -> Outcome
    requires { Fits script.now }
    ensures answers { (a : Answer) × IsAnswerOf script.now (told_of asked script.now) a
        × Answers a (Calm (O.faults output.old) (O.faults output.new)) result.status result.history.steps.items result.history.notes.items (O.taken output.old) (O.taken output.new) }
    ensures cause { result.status ≡ 5 → Rose (O.faults output.old) (O.faults output.new) }
    ensures failed { O.faults output.old < O.faults output.new → result.status ≡ 5 }
    ensures not_read { result.status ≢ 4 }
{
    let tablets = script.tablets.as_slice();
    let mut shard = match Shard::new(alloc, tablets, script.policy, begins_at(script)) {
        Ok(shard) => shard,
        Err(_) => return ended(alloc, 6),
    };
    match play(&mut shard, script) {
        Ok(stop) => tell(alloc, asked, script, shard.into_history(), &stop, output),
        Err(OutOfMemory) => Outcome {
            status: 6,
            history: shard.into_history(),
        },
    }
}

fn run_reading<O: Sink>(alloc: Global, asked: Asked, text: &[u8], output: &mut O) -> Outcome
    ensures within { result.status ≤ 1 → length text.now ≤ 1048576 }
    ensures answers { (a : Answer) × IsAnswerToText asked text.now a
        × Answers a (Calm (O.faults output.old) (O.faults output.new)) result.status result.history.steps.items result.history.notes.items (O.taken output.old) (O.taken output.new) }
    ensures cause { result.status ≡ 5 → Rose (O.faults output.old) (O.faults output.new) }
    ensures failed { O.faults output.old < O.faults output.new → result.status ≡ 5 }
    ensures not_read { result.status ≢ 4 }
{
    match read_text(alloc, text) {
        Ok(script) => run_script(alloc, asked, &script, output),
        Err(ScriptFault::OutOfMemory) => ended(alloc, 6),
        Err(ScriptFault::Line { line, fault }) => {
            let status = say(output, fault_text(alloc, line, fault), 3);
            ended(alloc, status)
        }
    }
}

/// Reads the script on the input, and plays it.
fn run_input<I: Source, O: Sink>(
    alloc: Global,
    asked: Asked,
    input: &mut I,
    output: &mut O,
) -> Outcome
    ensures answered { Calm (I.faults input.old) (I.faults input.new) → (text : List ℕ) × WasRead (I.left input.old) text
        × ((a : Answer) × IsAnswerToText asked text a
        × Answers a (Calm (O.faults output.old) (O.faults output.new)) result.status result.history.steps.items result.history.notes.items (O.taken output.old) (O.taken output.new)) }
    ensures ended { result.status ≤ 1 → IsAtEnd (I.left input.new) }
    ensures source_failed { I.faults input.old < I.faults input.new → (4 ≤ result.status) × (result.status ≤ 6) }
    ensures failed_said { I.faults input.old < I.faults input.new → AppendsFront (O.taken output.old) (O.taken output.new) read_fault_text }
    ensures failed_kept { I.faults input.old < I.faults input.new → result.history.steps.items ≡ [] }
    ensures failed_noted { I.faults input.old < I.faults input.new → result.history.notes.items ≡ [] }
    ensures sink_failed { O.faults output.old < O.faults output.new → result.status ≡ 5 }
    ensures read { result.status ≡ 4 → Rose (I.faults input.old) (I.faults input.new) }
    ensures read_said { result.status ≡ 4 → Appends (O.taken output.old) (O.taken output.new) read_fault_text }
    ensures read_kept { result.status ≡ 4 → result.history.steps.items ≡ [] }
    ensures read_noted { result.status ≡ 4 → result.history.notes.items ≡ [] }
    ensures write { result.status ≡ 5 → Rose (O.faults output.old) (O.faults output.new) }
    ensures safe { (config : Config) × IsSafe config result.history.steps.items }
{
    match read_all(alloc, input) {
        Ok(text) => run_reading(alloc, asked, &text, output),
        Err(ReadFault::OutOfMemory) => ended(alloc, 6),
        Err(ReadFault::Failed) => {
            let status = say(output, read_fault_text(alloc), 4);
            ended(alloc, status)
        }
    }
}

/// Plays a rehearsal of so many rounds.
fn run_generated<O: Sink>(alloc: Global, rounds: u64, output: &mut O) -> Outcome
    requires some { 1 ≤ rounds }
    requires few { rounds ≤ 1000 }
    ensures answers { (a : Answer) × IsAnswerOf (generated rounds) (told_of (asks.Gen rounds) (generated rounds)) a
        × Answers a (Calm (O.faults output.old) (O.faults output.new)) result.status result.history.steps.items result.history.notes.items (O.taken output.old) (O.taken output.new) }
    ensures cause { result.status ≡ 5 → Rose (O.faults output.old) (O.faults output.new) }
    ensures failed { O.faults output.old < O.faults output.new → result.status ≡ 5 }
    ensures not_read { result.status ≢ 4 }
{
    match generate(alloc, rounds) {
        Ok(script) => run_script(alloc, Asked::Gen { rounds }, &script, output),
        Err(_) => ended(alloc, 6),
    }
}

/// What the program does with its words, the script on its input, and its output. It waits for nobody, and always returns.
pub fn step_words<I: Source, O: Sink>(
    alloc: Global,
    words: &Vec<Vec<u8>>,
    input: &mut I,
    output: &mut O,
) -> Outcome
    // Where the source did not fail, the answer is one to the words and the text that it gave. Words that ask for nothing that it gives leave it as
    // it is, and a script that was played was read to its end.
    ensures answered { Calm (I.faults input.old) (I.faults input.new) → (text : List ℕ) × WasRead (I.left input.old) text
        × ((a : Answer) × IsAnswerTo (map (λ w. w.items) words.now.items) text a
        × Answers a (Calm (O.faults output.old) (O.faults output.new)) result.status result.history.steps.items result.history.notes.items (O.taken output.old) (O.taken output.new)) }
    ensures unread { IsSome (usage_fault (map (λ w. w.items) words.now.items)) → I.left input.new ≡ I.left input.old }
    ensures uncounted { IsSome (usage_fault (map (λ w. w.items) words.now.items)) → I.faults input.new ≡ I.faults input.old }
    ensures untaken { reads_source (map (λ w. w.items) words.now.items) ≡ false → I.left input.new ≡ I.left input.old }
    ensures unfailed { reads_source (map (λ w. w.items) words.now.items) ≡ false → I.faults input.new ≡ I.faults input.old }
    ensures ended { reads_source (map (λ w. w.items) words.now.items) ≡ true → result.status ≤ 1 → IsAtEnd (I.left input.new) }

    // A stream that failed is told by the status, which a stream that did not fail never gives. Where the source failed nothing was played,
    // and no more was written than that.
    ensures source_failed { I.faults input.old < I.faults input.new → (4 ≤ result.status) × (result.status ≤ 6) }
    ensures failed_said { I.faults input.old < I.faults input.new → AppendsFront (O.taken output.old) (O.taken output.new) read_fault_text }
    ensures failed_kept { I.faults input.old < I.faults input.new → result.history.steps.items ≡ [] }
    ensures failed_noted { I.faults input.old < I.faults input.new → result.history.notes.items ≡ [] }
    ensures sink_failed { O.faults output.old < O.faults output.new → result.status ≡ 5 }
    ensures read { result.status ≡ 4 → Rose (I.faults input.old) (I.faults input.new) }
    ensures read_said { result.status ≡ 4 → Appends (O.taken output.old) (O.taken output.new) read_fault_text }
    ensures read_kept { result.status ≡ 4 → result.history.steps.items ≡ [] }
    ensures read_noted { result.status ≡ 4 → result.history.notes.items ≡ [] }
    ensures write { result.status ≡ 5 → Rose (O.faults output.old) (O.faults output.new) }

    // Whatever the streams did, the history is a run of the machine.
    ensures safe { (config : Config) × IsSafe config result.history.steps.items }
{
    match words_reading(words) {
        Ok(Asked::Step) => run_input(alloc, Asked::Step, input, output),
        Ok(Asked::History) => run_input(alloc, Asked::History, input, output),
        Ok(Asked::Gen { rounds }) => run_generated(alloc, rounds, output),
        Err(word) => {
            let status = say(output, usage_text(alloc, word), 2);
            ended(alloc, status)
        }
    }
}

/// The program: what it does with its words, the script on its input, and its output.
pub fn vtshard_words<I: Source, O: Sink>(
    alloc: Global,
    words: &Vec<Vec<u8>>,
    input: &mut I,
    output: &mut O,
) -> Outcome
    // Where the source did not fail, the answer is one to the words and the text that it gave. Words that ask for nothing that it gives leave it as
    // it is, and a script that was played was read to its end.
    ensures answered { Calm (I.faults input.old) (I.faults input.new) → (text : List ℕ) × WasRead (I.left input.old) text
        × ((a : Answer) × IsAnswerTo (map (λ w. w.items) words.now.items) text a
        × Answers a (Calm (O.faults output.old) (O.faults output.new)) result.status result.history.steps.items result.history.notes.items (O.taken output.old) (O.taken output.new)) }
    ensures unread { IsSome (usage_fault (map (λ w. w.items) words.now.items)) → I.left input.new ≡ I.left input.old }
    ensures uncounted { IsSome (usage_fault (map (λ w. w.items) words.now.items)) → I.faults input.new ≡ I.faults input.old }
    ensures untaken { reads_source (map (λ w. w.items) words.now.items) ≡ false → I.left input.new ≡ I.left input.old }
    ensures unfailed { reads_source (map (λ w. w.items) words.now.items) ≡ false → I.faults input.new ≡ I.faults input.old }
    ensures ended { reads_source (map (λ w. w.items) words.now.items) ≡ true → result.status ≤ 1 → IsAtEnd (I.left input.new) }

    // A stream that failed is told by the status, which a stream that did not fail never gives. Where the source failed nothing was played,
    // and no more was written than that.
    ensures source_failed { I.faults input.old < I.faults input.new → (4 ≤ result.status) × (result.status ≤ 6) }
    ensures failed_said { I.faults input.old < I.faults input.new → AppendsFront (O.taken output.old) (O.taken output.new) read_fault_text }
    ensures failed_kept { I.faults input.old < I.faults input.new → result.history.steps.items ≡ [] }
    ensures failed_noted { I.faults input.old < I.faults input.new → result.history.notes.items ≡ [] }
    ensures sink_failed { O.faults output.old < O.faults output.new → result.status ≡ 5 }
    ensures read { result.status ≡ 4 → Rose (I.faults input.old) (I.faults input.new) }
    ensures read_said { result.status ≡ 4 → Appends (O.taken output.old) (O.taken output.new) read_fault_text }
    ensures read_kept { result.status ≡ 4 → result.history.steps.items ≡ [] }
    ensures read_noted { result.status ≡ 4 → result.history.notes.items ≡ [] }
    ensures write { result.status ≡ 5 → Rose (O.faults output.old) (O.faults output.new) }

    // Whatever the streams did, the history is a run of the machine.
    ensures safe { (config : Config) × IsSafe config result.history.steps.items }
{
    step_words(alloc, words, input, output)
}
