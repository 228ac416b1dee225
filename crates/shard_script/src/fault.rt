//! What is wrong with a line behind the lines before it.

ghost use Rattle.std.specs.Prelude.{◌≡◌, map};
ghost use Rattle.shard_script.specs.Lines.{words_of};
ghost use Rattle.shard_script.specs.Faults.{bytes_fault, is_declaration, late_fault, is_alias_of, is_server_of, same_tablet_fault, tablet_fault, name_fault, started_fault, known_fault, place_fault, told_fault, fault_of};

use crate::line::{has_script_bytes, is_short, say_nothing};
use crate::script::{MOST_NAMES, MOST_TABLETS, Script, has_alias, has_name, has_server};
use script_commands::{read_name, read_server};
use script_faults::{Fault, earlier, line_fault, unless};
use shard_names::{Alias, Name};

fn bytes_fault(bytes: &[u8]) -> Option<Fault>
    ensures { result ≡ bytes_fault bytes.now }
{
    earlier(
        unless(is_short(bytes), Fault::Limit),
        unless(has_script_bytes(bytes), Fault::Unknown),
    )
}

fn is_declaration(head: &[u8]) -> bool
    ensures { result ≡ is_declaration head.now }
{
    head == b"shard".as_slice() || head == b"tablet".as_slice() || head == b"clock".as_slice()
}

/// A declaration stands before the first action.
fn late_fault(script: &Script, head: &[u8]) -> Option<Fault>
    ensures { result ≡ late_fault script.now head.now }
{
    let late = is_declaration(head) && !script.actions.is_empty();
    unless(!late, Fault::Late)
}

/// Whether a text is the alias of a declared tablet.
fn is_alias_of(script: &Script, text: &[u8]) -> bool
    ensures { result ≡ is_alias_of script.now text.now }
{
    match Alias::read(text).ok() {
        None => false,
        Some(alias) => has_alias(script.tablets.as_slice(), &alias),
    }
}

/// Whether a text is the server of a declared tablet.
fn is_server_of(script: &Script, text: &[u8]) -> bool
    ensures { result ≡ is_server_of script.now text.now }
{
    match read_server(text) {
        None => false,
        Some(server) => has_server(script.tablets.as_slice(), &server),
    }
}

/// No declared tablet has the alias or the server.
fn same_tablet_fault(script: &Script, words: &[&[u8]]) -> Option<Fault>
    ensures { result ≡ same_tablet_fault script.now (map (λ w. w.now) words.now) }
{
    if words.len() < 3 {
        return None;
    }
    let known = is_alias_of(script, words[0]) || is_server_of(script, words[2]);
    unless(!known, Fault::Twice)
}

/// What is wrong with one more tablet.
fn tablet_fault(script: &Script, words: &[&[u8]]) -> Option<Fault>
    ensures { result ≡ tablet_fault script.now (map (λ w. w.now) words.now) }
{
    let room = script.tablets.len() < MOST_TABLETS;
    earlier(unless(room, Fault::Limit), same_tablet_fault(script, words))
}

/// What is wrong with one more name that is started.
fn name_fault(script: &Script, name: &Name) -> Option<Fault>
    ensures { result ≡ name_fault script.now name.now }
{
    if has_name(script.names.as_slice(), name) {
        return Some(Fault::Twice);
    }
    unless(script.names.len() < MOST_NAMES, Fault::Limit)
}

fn started_fault(script: &Script, words: &[&[u8]]) -> Option<Fault>
    ensures { result ≡ started_fault script.now (map (λ w. w.now) words.now) }
{
    match words.split_first() {
        None => None,
        Some((name, _)) => match read_name(name) {
            None => None,
            Some(name) => name_fault(script, &name),
        },
    }
}

/// What is declared or started twice, or too often.
fn known_fault(script: &Script, head: &[u8], words: &[&[u8]]) -> Option<Fault>
    ensures { result ≡ known_fault script.now head.now (map (λ w. w.now) words.now) }
{
    if head == b"shard".as_slice() {
        unless(script.shard.is_none(), Fault::Twice)
    } else if head == b"clock".as_slice() {
        unless(script.clock.is_none(), Fault::Twice)
    } else if head == b"tablet".as_slice() {
        tablet_fault(script, words)
    } else if head == b"start".as_slice() {
        started_fault(script, words)
    } else {
        None
    }
}

fn place_fault(script: &Script, words: &[&[u8]]) -> Option<Fault>
    ensures { result ≡ place_fault script.now (map (λ w. w.now) words.now) }
{
    match words.split_first() {
        None => None,
        Some((head, words)) => {
            earlier(late_fault(script, head), known_fault(script, head, words))
        }
    }
}

fn told_fault(script: &Script, words: &[&[u8]]) -> Option<Fault>
    ensures { result ≡ told_fault script.now (map (λ w. w.now) words.now) }
{
    if say_nothing(words) {
        return None;
    }
    earlier(line_fault(words), place_fault(script, words))
}

/// The fault of a line of these words that may not stand behind the script so far: the first in order. Where it has none of the others,
/// something is not declared.
#[tactic(auto, unfolding(crate::specs::Faults::fault_of))]
pub(crate) fn fault_of(script: &Script, bytes: &[u8], words: &[&[u8]]) -> Fault
    requires { map (λ w. w.now) words.now ≡ words_of bytes.now }
    ensures { result ≡ fault_of script.now bytes.now }
{
    earlier(bytes_fault(bytes), told_fault(script, words)).unwrap_or(Fault::Undeclared)
}
