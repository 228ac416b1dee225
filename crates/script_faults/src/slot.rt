//! What may stand at a place of a line.

ghost use Rattle.std.specs.Prelude.{◌≡◌, map};
ghost use Rattle.script_faults.specs.Slots.{duration_fault, moment_fault, count_fault, writes_fault, slot_fault, words_fault};

use crate::fault::{Fault, earlier, unless};
use script_commands::{
    is_duration, is_moment, policy_named, read_duration, read_kind, read_moment, read_name,
    read_number, read_server, read_side, read_within,
};
use shard_names::{Alias, ShardName};

/// What stands at a place.
#[derive(Clone, Copy)]
pub(crate) enum Slot {
    Shard,
    Policy,
    Tablet,
    Kind,
    Server,
    Moment,
    Actor,
    Pumps,
    Number,
    /// A count of writes, with the most.
    Writes { most: u64 },
    Duration,
    Side,
    /// The word `keep`.
    Keep,
    /// The word `to`.
    To,
}

fn duration_fault(text: &[u8]) -> Option<Fault>
    ensures { result ≡ duration_fault text.now }
{
    if read_duration(text).is_some() {
        None
    } else if is_duration(text) {
        Some(Fault::Limit)
    } else {
        Some(Fault::BadTime)
    }
}

fn moment_fault(text: &[u8]) -> Option<Fault>
    ensures { result ≡ moment_fault text.now }
{
    if read_moment(text).is_some() {
        None
    } else if is_moment(text) {
        Some(Fault::Limit)
    } else {
        Some(Fault::BadTime)
    }
}

/// The most writes of a line.
pub(crate) const MOST_WRITES: u64 = 10_000;

fn count_fault(most: u64, count: u64) -> Option<Fault>
    ensures { result ≡ count_fault most count }
{
    if count <= MOST_WRITES {
        unless(1 <= count && count <= most, Fault::Malformed)
    } else {
        Some(Fault::Limit)
    }
}

#[tactic(auto, unfolding(crate::specs::Slots::writes_fault))]
fn writes_fault(most: u64, text: &[u8]) -> Option<Fault>
    ensures { result ≡ writes_fault most text.now }
{
    match read_number(text) {
        None => Some(Fault::Malformed),
        Some(count) => count_fault(most, count),
    }
}

/// What is wrong with a word at its place.
pub(crate) fn slot_fault(slot: Slot, text: &[u8]) -> Option<Fault>
    ensures { result ≡ slot_fault slot text.now }
{
    match slot {
        Slot::Shard => unless(ShardName::read(text).is_some(), Fault::Malformed),
        Slot::Policy => unless(policy_named(text).is_some(), Fault::UnknownPolicy),
        Slot::Tablet => unless(Alias::read(text).ok().is_some(), Fault::BadAlias),
        Slot::Kind => unless(read_kind(text).is_some(), Fault::Unknown),
        Slot::Server => unless(read_server(text).is_some(), Fault::BadServer),
        Slot::Moment => moment_fault(text),
        Slot::Actor => unless(read_name(text).is_some(), Fault::Malformed),
        Slot::Pumps => unless(read_within(text, 1, 1_000_000).is_some(), Fault::Malformed),
        Slot::Number => unless(read_number(text).is_some(), Fault::Malformed),
        Slot::Writes { most } => writes_fault(most, text),
        Slot::Duration => duration_fault(text),
        Slot::Side => unless(read_side(text).is_some(), Fault::BadAlias),
        Slot::Keep => unless(text == b"keep".as_slice(), Fault::Unknown),
        Slot::To => unless(text == b"to".as_slice(), Fault::Unknown),
    }
}

/// What is wrong with words, each at its place. A word too few or too many is malformed.
pub(crate) fn words_fault(slots: &[Slot], words: &[&[u8]]) -> Option<Fault>
    ensures { result ≡ words_fault slots.now (map (λ w. w.now) words.now) }
{
    match slots.split_first() {
        None => unless(words.is_empty(), Fault::Malformed),
        Some((slot, slots)) => match words.split_first() {
            None => Some(Fault::Malformed),
            Some((word, words)) => earlier(slot_fault(*slot, word), words_fault(slots, words)),
        },
    }
}
