//! What is wrong with the words behind a reparent's name.

ghost use Rattle.std.specs.Prelude.{◌≡◌, ◌<◌, None, true, length, map, is_some, IfSome};
ghost use Rattle.std.specs.Result.{result_ok};
ghost use Rattle.shard_names.specs.Alias.{alias_reading};
ghost use Rattle.script_faults.specs.Options.{no_marks, noted, is_given, given, are_aliases, aliases_fault, value_fault, given_fault, with_value, with_shard, with_allowed, with_prevented, waiting, with_name, with_pair, with_short, with_option_at, with_option, with_free_word, with_word, with_words, is_whole, marks_planned_fault, marks_emergency_fault, planned_fault, emergency_fault};

use crate::fault::{Fault, earlier, unless};
use crate::slot::{Slot, slot_fault};
use script_commands::{Key, begins_dash, begins_short, behind_short, find_equals, read_key};
use shard_names::{Alias, ShardName};

/// What the words so far have given, whether it was right or not, and their fault.
#[derive(Clone, Copy)]
pub(crate) struct Marks {
    fault: Option<Fault>,
    /// The option whose value the next word is.
    pending: Option<Key>,
    /// Whether `--` came: no word behind it is an option.
    ended: bool,
    shard: bool,
    new_primary: bool,
    avoid: bool,
    ignored: bool,
    expected: bool,
    timeout: bool,
    allow_cross_cell: bool,
    prevent_cross_cell: bool,
}

fn no_marks() -> Marks
    ensures { result ≡ no_marks }
{
    Marks {
        fault: None,
        pending: None,
        ended: false,
        shard: false,
        new_primary: false,
        avoid: false,
        ignored: false,
        expected: false,
        timeout: false,
        allow_cross_cell: false,
        prevent_cross_cell: false,
    }
}

/// The marks with one more fault, if there is one.
fn noted(marks: Marks, fault: Option<Fault>) -> Marks
    ensures { result ≡ noted marks fault }
{
    let mut marks = marks;
    marks.fault = earlier(marks.fault, fault);
    marks
}

fn is_given(marks: &Marks, key: Key) -> bool
    ensures { result ≡ is_given marks.now key }
{
    match key {
        Key::NewPrimary => marks.new_primary,
        Key::Avoid => marks.avoid,
        Key::Ignored => marks.ignored,
        Key::Expected => marks.expected,
        Key::Timeout => marks.timeout,
    }
}

/// The marks where the option is given, and none waits for its value.
fn given(marks: Marks, key: Key) -> Marks
    ensures { result ≡ given marks key }
{
    let mut marks = marks;
    marks.pending = None;
    match key {
        Key::NewPrimary => marks.new_primary = true,
        Key::Avoid => marks.avoid = true,
        Key::Ignored => marks.ignored = true,
        Key::Expected => marks.expected = true,
        Key::Timeout => marks.timeout = true,
    }
    marks
}

fn is_alias(text: &[u8]) -> bool
    ensures { result ≡ is_some (result_ok (alias_reading text.now)) }
{
    Alias::read(text).ok().is_some()
}

/// Whether the parts between commas are aliases.
fn are_aliases(text: &[u8]) -> bool
    ensures { result ≡ are_aliases text.now }
{
    text.split(|byte| *byte == b',').all(|part| is_alias(part))
}

/// What is wrong with aliases with commas between them.
fn aliases_fault(text: &[u8]) -> Option<Fault>
    ensures { result ≡ aliases_fault text.now }
{
    unless(are_aliases(text), Fault::BadAlias)
}

fn value_fault(key: Key, text: &[u8]) -> Option<Fault>
    ensures { result ≡ value_fault key text.now }
{
    match key {
        Key::NewPrimary => slot_fault(Slot::Tablet, text),
        Key::Avoid => slot_fault(Slot::Tablet, text),
        Key::Ignored => aliases_fault(text),
        Key::Expected => slot_fault(Slot::Tablet, text),
        Key::Timeout => slot_fault(Slot::Duration, text),
    }
}

/// What is wrong with the value of an option: it does not begin with a dash, and its option is given once.
fn given_fault(marks: &Marks, key: Key, text: &[u8]) -> Option<Fault>
    ensures { result ≡ given_fault marks.now key text.now }
{
    let allowed = unless(
        !begins_dash(text) && !is_given(marks, key),
        Fault::Malformed,
    );
    earlier(allowed, value_fault(key, text))
}

#[tactic(auto, unfolding(crate::specs::Options::with_value))]
fn with_value(marks: Marks, key: Key, text: &[u8]) -> Marks
    ensures { result ≡ with_value marks key text.now }
{
    let fault = given_fault(&marks, key, text);
    given(noted(marks, fault), key)
}

#[tactic(auto, unfolding(crate::specs::Options::with_shard))]
fn with_shard(marks: Marks, word: &[u8]) -> Marks
    ensures { result ≡ with_shard marks word.now }
{
    let once = ShardName::read(word).is_some() && !marks.shard;
    let mut marks = noted(marks, unless(once, Fault::Malformed));
    marks.shard = true;
    marks
}

fn with_allowed(marks: Marks) -> Marks
    ensures { result ≡ with_allowed marks }
{
    let mut marks = noted(marks, unless(!marks.allow_cross_cell, Fault::Malformed));
    marks.allow_cross_cell = true;
    marks
}

fn with_prevented(marks: Marks) -> Marks
    ensures { result ≡ with_prevented marks }
{
    let mut marks = noted(marks, unless(!marks.prevent_cross_cell, Fault::Malformed));
    marks.prevent_cross_cell = true;
    marks
}

/// The marks with an option whose value is the next word.
fn waiting(marks: Marks, key: Option<Key>) -> Marks
    ensures { result ≡ waiting marks key }
{
    let Some(key) = key else {
        return noted(marks, Some(Fault::Malformed));
    };
    let mut marks = marks;
    marks.pending = Some(key);
    marks
}

/// The marks with an option that is written without `=`.
fn with_name(marks: Marks, word: &[u8]) -> Marks
    ensures { result ≡ with_name marks word.now }
{
    if word == b"--allow-cross-cell-promotion".as_slice() {
        with_allowed(marks)
    } else if word == b"--prevent-cross-cell-promotion".as_slice() {
        with_prevented(marks)
    } else {
        waiting(marks, read_key(word))
    }
}

/// The marks with an option that is written with its value, behind an `=` at this place.
#[tactic(auto, unfolding(crate::specs::Options::with_pair))]
fn with_pair(marks: Marks, word: &[u8], place: usize) -> Marks
    requires { place < length word.now }
    ensures { result ≡ with_pair marks word.now place }
{
    match read_key(&word[..place]) {
        None => noted(marks, Some(Fault::Malformed)),
        Some(key) => with_value(marks, key, &word[place + 1..]),
    }
}

/// The marks with what stands behind `-i`: nothing, `=` and the value, or the value.
fn with_short(marks: Marks, behind: &[u8]) -> Marks
    ensures { result ≡ with_short marks behind.now }
{
    match behind.split_first() {
        None => waiting(marks, Some(Key::Ignored)),
        Some((byte, value)) => {
            if *byte == b'=' {
                return with_value(marks, Key::Ignored, value);
            }
            with_value(marks, Key::Ignored, behind)
        }
    }
}

fn with_option_at(marks: Marks, word: &[u8], place: Option<usize>) -> Marks
    requires { IfSome place (λ k. k < length word.now) }
    ensures { result ≡ with_option_at marks word.now place }
{
    match place {
        None => with_name(marks, word),
        Some(place) => with_pair(marks, word, place),
    }
}

/// The marks with `--`: no word behind it is an option.
fn with_end(marks: Marks) -> Marks
    ensures { result ≡ record marks { ended = true } }
{
    let mut marks = marks;
    marks.ended = true;
    marks
}

#[tactic(auto, unfolding(crate::specs::Options::with_option))]
fn with_option(marks: Marks, word: &[u8]) -> Marks
    ensures { result ≡ with_option marks word.now }
{
    if word == b"--".as_slice() {
        return with_end(marks);
    }
    if begins_short(word) {
        return with_short(marks, behind_short(word));
    }
    with_option_at(marks, word, find_equals(word))
}

/// The marks with a word that is no value.
fn with_free_word(marks: Marks, word: &[u8]) -> Marks
    ensures { result ≡ with_free_word marks word.now }
{
    if marks.ended || !begins_dash(word) {
        return with_shard(marks, word);
    }
    with_option(marks, word)
}

/// The marks with one more word.
fn with_word(marks: Marks, word: &[u8]) -> Marks
    ensures { result ≡ with_word marks word.now }
{
    match marks.pending {
        None => with_free_word(marks, word),
        Some(key) => with_value(marks, key, word),
    }
}

fn with_words(words: &[&[u8]]) -> Marks
    ensures { result ≡ with_words no_marks (map (λ w. w.now) words.now) }
{
    let mut marks = no_marks();
    for word in words {
        marks = with_word(marks, word);
    }
    marks
}

/// Whether no option waits for its value, and the shard is named.
fn is_whole(marks: &Marks) -> bool
    ensures { result ≡ is_whole marks.now }
{
    marks.pending.is_none() && marks.shard
}

/// What is wrong with the words behind `PlannedReparentShard`.
pub(crate) fn planned_fault(words: &[&[u8]]) -> Option<Fault>
    ensures { result ≡ planned_fault (map (λ w. w.now) words.now) }
{
    let marks = with_words(words);
    let fits = is_whole(&marks) && !marks.ignored && !marks.prevent_cross_cell;
    earlier(marks.fault, unless(fits, Fault::Malformed))
}

/// What is wrong with the words behind `EmergencyReparentShard`.
pub(crate) fn emergency_fault(words: &[&[u8]]) -> Option<Fault>
    ensures { result ≡ emergency_fault (map (λ w. w.now) words.now) }
{
    let marks = with_words(words);
    let fits = is_whole(&marks) && !marks.avoid && !marks.allow_cross_cell;
    earlier(marks.fault, unless(fits, Fault::Malformed))
}
