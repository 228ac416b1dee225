//! What is wrong with the words of a command.

ghost use Rattle.std.specs.Prelude.{◌≡◌, map};
ghost use Rattle.script_faults.specs.Lines.{write_fault, names_tablet, names_shard, short_command_fault, command_fault};

use crate::fault::Fault;
use crate::options::{emergency_fault, planned_fault};
use crate::slot::{Slot, words_fault};

fn write_fault(most: u64, words: &[&[u8]]) -> Option<Fault>
    ensures { result ≡ write_fault most (map (λ w. w.now) words.now) }
{
    if words.len() <= 1 {
        words_fault(&[Slot::Writes { most }], words)
    } else {
        words_fault(&[Slot::Writes { most }, Slot::To, Slot::Tablet], words)
    }
}

/// Whether the word is that of a command of one tablet.
fn names_tablet(head: &[u8]) -> bool
    ensures { result ≡ names_tablet head.now }
{
    head == b"show".as_slice() || head == b"TabletExternallyReparented".as_slice()
}

/// Whether the word is that of a command that shows the shard.
fn names_shard(head: &[u8]) -> bool
    ensures { result ≡ names_shard head.now }
{
    head == b"GetShard".as_slice() || head == b"GetTablets".as_slice()
}

/// What is wrong with a command that is neither a reparent of the shard nor a write.
fn short_command_fault(head: &[u8], words: &[&[u8]]) -> Option<Fault>
    ensures { result ≡ short_command_fault head.now (map (λ w. w.now) words.now) }
{
    if names_tablet(head) {
        words_fault(&[Slot::Tablet], words)
    } else if names_shard(head) {
        words_fault(&[Slot::Shard], words)
    } else if head == b"vtorc".as_slice() {
        words_fault(&[], words)
    } else {
        Some(Fault::Unknown)
    }
}

/// What is wrong with a command of this word and the words behind it, where it may ask for so many writes.
pub(crate) fn command_fault(most: u64, head: &[u8], words: &[&[u8]]) -> Option<Fault>
    ensures { result ≡ command_fault most head.now (map (λ w. w.now) words.now) }
{
    if head == b"PlannedReparentShard".as_slice() {
        planned_fault(words)
    } else if head == b"EmergencyReparentShard".as_slice() {
        emergency_fault(words)
    } else if head == b"write".as_slice() {
        write_fault(most, words)
    } else {
        short_command_fault(head, words)
    }
}
