//! What is wrong with the words of a line, whatever lines stand before it.

ghost use Rattle.std.specs.Prelude.{◌≡◌, map, codes};
ghost use Rattle.std.specs.Str.{bytes_eq};
ghost use Rattle.script_faults.specs.Lines.{given_once_fault, start_fault, ends_fault, link_fault, is_link, is_of_other_mode, declaration_fault, message_fault, head_fault, line_fault};

use crate::command::command_fault;
use crate::fault::{Fault, earlier};
use crate::slot::{MOST_WRITES, Slot, slot_fault, words_fault};

/// What is wrong with a command that is given once.
fn given_once_fault(words: &[&[u8]]) -> Option<Fault>
    ensures { result ≡ given_once_fault (map (λ w. w.now) words.now) }
{
    match words.split_first() {
        None => Some(Fault::Malformed),
        Some((head, words)) => command_fault(1, head, words),
    }
}

fn start_fault(words: &[&[u8]]) -> Option<Fault>
    ensures { result ≡ start_fault (map (λ w. w.now) words.now) }
{
    match words.split_first() {
        None => Some(Fault::Malformed),
        Some((name, words)) => earlier(slot_fault(Slot::Actor, name), given_once_fault(words)),
    }
}

fn is_control(word: &[u8]) -> bool
    ensures { result ≡ bytes_eq word.now (codes "control") }
{
    word == b"control".as_slice()
}

/// A link has an end that is a tablet.
fn ends_fault(words: &[&[u8]]) -> Option<Fault>
    ensures { result ≡ ends_fault (map (λ w. w.now) words.now) }
{
    if words.len() < 2 {
        return None;
    }
    if is_control(words[0]) && is_control(words[1]) {
        Some(Fault::BadAlias)
    } else {
        None
    }
}

fn link_fault(words: &[&[u8]]) -> Option<Fault>
    ensures { result ≡ link_fault (map (λ w. w.now) words.now) }
{
    earlier(
        words_fault(&[Slot::Side, Slot::Side], words),
        ends_fault(words),
    )
}

fn is_link(head: &[u8]) -> bool
    ensures { result ≡ is_link head.now }
{
    head == b"cut".as_slice() || head == b"mend".as_slice()
}

/// Whether such a line stands in the blocks of several threads, or in a history.
fn is_of_other_mode(head: &[u8]) -> bool
    ensures { result ≡ is_of_other_mode head.now }
{
    head == b"actor".as_slice() || head == b"end".as_slice() || head == b"history".as_slice()
}

/// What is wrong with a declaration, or else with a command.
fn declaration_fault(head: &[u8], words: &[&[u8]]) -> Option<Fault>
    ensures { result ≡ declaration_fault head.now (map (λ w. w.now) words.now) }
{
    if head == b"shard".as_slice() {
        words_fault(&[Slot::Shard, Slot::Policy], words)
    } else if head == b"tablet".as_slice() {
        words_fault(&[Slot::Tablet, Slot::Kind, Slot::Server], words)
    } else if head == b"clock".as_slice() {
        words_fault(&[Slot::Moment], words)
    } else if is_of_other_mode(head) {
        Some(Fault::OtherMode)
    } else {
        command_fault(MOST_WRITES, head, words)
    }
}

/// What is wrong with what is done to messages, the lock and the clock, or else with further lines.
fn message_fault(head: &[u8], words: &[&[u8]]) -> Option<Fault>
    ensures { result ≡ message_fault head.now (map (λ w. w.now) words.now) }
{
    if head == b"lose".as_slice() || head == b"repeat".as_slice() {
        words_fault(&[Slot::Number], words)
    } else if head == b"lapse".as_slice() || head == b"settle".as_slice() {
        words_fault(&[], words)
    } else if head == b"tick".as_slice() {
        words_fault(&[Slot::Duration], words)
    } else {
        declaration_fault(head, words)
    }
}

fn head_fault(head: &[u8], words: &[&[u8]]) -> Option<Fault>
    ensures { result ≡ head_fault head.now (map (λ w. w.now) words.now) }
{
    if head == b"start".as_slice() {
        start_fault(words)
    } else if head == b"turn".as_slice() {
        words_fault(&[Slot::Actor, Slot::Pumps], words)
    } else if head == b"finish".as_slice() {
        words_fault(&[Slot::Actor], words)
    } else if head == b"local".as_slice() || head == b"restart".as_slice() {
        words_fault(&[Slot::Tablet], words)
    } else if head == b"crash".as_slice() {
        words_fault(&[Slot::Tablet, Slot::Keep, Slot::Number], words)
    } else if is_link(head) {
        link_fault(words)
    } else {
        message_fault(head, words)
    }
}

/// What is wrong with the words of a line, whatever lines stand before it.
pub fn line_fault(words: &[&[u8]]) -> Option<Fault>
    ensures { result ≡ line_fault (map (λ w. w.now) words.now) }
{
    match words.split_first() {
        None => None,
        Some((head, words)) => head_fault(head, words),
    }
}
