//! What a replica may be offered of its primary's log, and the first replica that may be offered an entry.

ghost use Rattle.std.specs.Prelude.{◌≡◌, ◌&&◌, ◌<◌, length, nat_lt, slice_get, is_some};
ghost use Rattle.std.specs.List.{list_any};
ghost use Rattle.shard_calls.specs.declared.stand.Stand.TheVariants as stands;
ghost use Rattle.shard_calls.specs.Messages.{passes, waits_at, is_under_way, may_feed, offered_by, offer_to};
ghost use Rattle.shard_calls.specs.World.{numbered};
ghost use Rattle.post.specs.Directions.{IsPlace};
ghost use Rattle.shard_state.specs.State.{seen, data_of, config_in, state_at, AreOfGroup};
ghost use Rattle.tablet_manager.specs.Managed.{state_of};
ghost use Rattle.arrivals.specs.Addressed.{KnowsTablets, AreAddressed};
ghost use Rattle.arrivals.specs.Arrivals.{next_offered};
ghost use Rattle.arrivals.specs.Offers.{sends, sent_by, most_sent, waits_within, is_offered, first_offered};
ghost use Rattle.arrivals.specs.Ways.{is_feed_due, is_feed_on, is_feed_to};

use crate::due::is_due;
use crate::feeding::{feed, feeds_term, sends_all_from};
use crate::links::{is_cut, link_between};
use post::Queue;
use shard_calls::{Content, Stand};
use shard_names::Alias;
use shard_state::{Fields, manager_of};
use tablet_manager::{Manager, PlainLog};

fn waits_at(content: &Content, replica: &Alias, next: u64) -> bool
    ensures { result ≡ waits_at replica.now next content.now }
{
    match content {
        Content::Asks { .. } => false,
        Content::Answers { .. } => false,
        Content::Feeds { to, after, .. } => *to == *replica && *after == next,
        Content::Acks { .. } => false,
    }
}

/// Whether the message of this number is due and brings the replica what comes behind an entry.
fn is_feed_of(fields: &Fields, number: u64, replica: &Alias, next: u64) -> bool
    requires group { AreOfGroup (data_of fields.now) }
    ensures { result ≡ passes (is_feed_due (data_of fields.now) replica.now next) (numbered fields.now.post.messages number) }
{
    match fields.post.message(number) {
        Some(message) => waits_at(&message.content, replica, next) && is_due(fields, message),
        None => false,
    }
}

/// Whether the message at an index of the queue is due and brings the replica what comes behind an entry.
fn is_feed_at(fields: &Fields, queue: &Queue, at: usize, replica: &Alias, next: u64) -> bool
    requires group { AreOfGroup (data_of fields.now) }
    ensures { result ≡ passes (λ k. passes (is_feed_due (data_of fields.now) replica.now next) (numbered fields.now.post.messages k)) (slice_get queue.now at) }
{
    match queue.get(at) {
        Some(number) => is_feed_of(fields, number, replica, next),
        None => false,
    }
}

fn is_feed_in(fields: &Fields, queue: &Queue, replica: &Alias, next: u64) -> bool
    requires group { AreOfGroup (data_of fields.now) }
    ensures { result ≡ list_any (λ k. passes (is_feed_due (data_of fields.now) replica.now next) (numbered fields.now.post.messages k)) queue.now }
{
    for at in 0..queue.len() {
        if is_feed_at(fields, queue, at, replica, next) {
            return true;
        }
    }
    false
}

fn is_feed_on(fields: &Fields, from: usize, to: usize, replica: &Alias, next: u64) -> bool
    requires group { AreOfGroup (data_of fields.now) }
    requires from { IsPlace fields.now.post.aliases from }
    requires to { IsPlace fields.now.post.aliases to }
    ensures { result ≡ list_any (is_feed_on (data_of fields.now) from to replica.now next) fields.now.post.messages }
{
    is_feed_in(fields, fields.post.waiting(from, to), replica, next)
}

fn is_feed_to(fields: &Fields, to: usize, replica: &Alias, next: u64) -> bool
    requires group { AreOfGroup (data_of fields.now) }
    requires to { IsPlace fields.now.post.aliases to }
    ensures { result ≡ list_any (is_feed_to (data_of fields.now) to replica.now next) fields.now.post.messages }
{
    for from in 0..fields.post.aliases().len() + 1 {
        if is_feed_on(fields, from, to, replica, next) {
            return true;
        }
    }
    false
}

/// Whether an entry for the replica, behind what it has, is on its way. It costs a few steps for each message that waits on its way there.
fn is_under_way(fields: &Fields, replica: &Alias, next: u64) -> bool
    requires group { AreOfGroup (data_of fields.now) }
    requires known { KnowsTablets (data_of fields.now) }
    requires addressed { AreAddressed (data_of fields.now) }
    ensures { result ≡ is_under_way (seen (data_of fields.now)) replica.now next }
{
    let to = fields.post.place_of(replica);
    if to > fields.post.aliases().len() {
        return false;
    }
    is_feed_to(fields, to, replica, next)
}

/// Whether the source may send anything now.
fn may_feed(
    fields: &Fields,
    source: &Alias,
    manager: &Manager,
    replica: &Alias,
    term: u64,
    next: u64,
) -> bool
    requires group { AreOfGroup (data_of fields.now) }
    requires known { KnowsTablets (data_of fields.now) }
    requires addressed { AreAddressed (data_of fields.now) }
    requires source { state_of manager.now ≡ state_at fields.now.managers.items source.now }
    ensures { result ≡ may_feed (seen (data_of fields.now)) source.now replica.now term next }
{
    feeds_term(manager.stand(), term)
        && !is_cut(&fields.cuts, &link_between(source, replica))
        && !is_under_way(fields, replica, next)
}

/// Whether the log has not come to this index.
fn is_beyond(log: &PlainLog, index: u64) -> bool
    ensures { result ≡ nat_lt (length log.now.entries) index }
{
    (log.entries().len() as u64) < index
}

/// What a tablet that replicates from another in the term, and waits for an entry, is offered.
fn offered(
    fields: &Fields,
    replica: &Manager,
    to: &Alias,
    from: &Alias,
    term: u64,
    next: u64,
) -> Option<Content>
    requires group { AreOfGroup (data_of fields.now) }
    requires known { KnowsTablets (data_of fields.now) }
    requires addressed { AreAddressed (data_of fields.now) }
    requires replica { state_of replica.now ≡ state_at fields.now.managers.items to.now }
    ensures { result ≡ offered_by (seen (data_of fields.now)) to.now (stands.Replica from.now term next) }
{
    match manager_of(&fields.managers, from) {
        Some(source) => {
            if is_beyond(source.log(), next) {
                return None;
            }
            if may_feed(fields, from, source, to, term, next) {
                let row = sends_all_from(source);
                return feed(source.log(), row, replica.log(), from, to, term, next);
            }
            None
        }
        None => None,
    }
}

fn offer_by_stand(fields: &Fields, manager: &Manager, replica: &Alias) -> Option<Content>
    requires group { AreOfGroup (data_of fields.now) }
    requires known { KnowsTablets (data_of fields.now) }
    requires addressed { AreAddressed (data_of fields.now) }
    requires replica { state_of manager.now ≡ state_at fields.now.managers.items replica.now }
    ensures { result ≡ offered_by (seen (data_of fields.now)) replica.now manager.now.stand }
{
    match manager.stand() {
        Stand::Down => None,
        Stand::Stopped => None,
        Stand::Primary { .. } => None,
        Stand::Demoted { .. } => None,
        Stand::Replica { source, term, next } => {
            offered(fields, manager, replica, source, *term, *next)
        }
        Stand::Feeder { .. } => None,
    }
}

/// The entry that a replica may be offered, as its source sends it: the first that it needs, if the source sends its log, the link is
/// not cut, and none is on its way.
///
/// Where the source has no entry that the replica waits for, it costs the steps to the two tablets. Else it costs a few steps for each tablet and for
/// each message that waits on its way to the replica, and what `feed` costs: little where the entry is near the end of the source's log, or near the
/// one that the replica waits for.
pub fn offer_to(fields: &Fields, replica: &Alias) -> Option<Content>
    requires group { AreOfGroup (data_of fields.now) }
    requires known { KnowsTablets (data_of fields.now) }
    requires addressed { AreAddressed (data_of fields.now) }
    ensures { result ≡ offer_to (seen (data_of fields.now)) replica.now }
{
    match manager_of(&fields.managers, replica) {
        Some(manager) => offer_by_stand(fields, manager, replica),
        None => None,
    }
}

/// Whether a tablet that stands so sends its log to the replicas of some term.
fn sends(stand: &Stand) -> bool
    ensures { result ≡ sends stand.now }
{
    match stand {
        Stand::Down => false,
        Stand::Stopped => false,
        Stand::Primary { .. } => true,
        Stand::Demoted { .. } => true,
        Stand::Replica { .. } => false,
        Stand::Feeder { .. } => true,
    }
}

fn sent_by(manager: &Manager) -> u64
    ensures { result ≡ sent_by manager.now }
{
    if sends(manager.stand()) {
        return manager.log().entries().len() as u64;
    }
    0
}

/// The length of the longest log that a tablet sends.
fn most_sent(managers: &[Manager]) -> u64
    ensures { result ≡ most_sent managers.now }
{
    let mut rest = managers;
    let mut most = 0;
    while let Some((manager, more)) = rest.split_first() {
        most = most.max(sent_by(manager));
        rest = more;
    }
    most
}

/// Whether a tablet that stands so waits for an entry that a log of this length has.
fn waits_within(stand: &Stand, most: u64) -> bool
    ensures { result ≡ waits_within most stand.now }
{
    match stand {
        Stand::Down => false,
        Stand::Stopped => false,
        Stand::Primary { .. } => false,
        Stand::Demoted { .. } => false,
        Stand::Replica { next, .. } => *next <= most,
        Stand::Feeder { .. } => false,
    }
}

/// Whether the tablet waits for an entry that a log of this length has, and may be offered one. Who does not wait for one costs a few steps.
fn is_offered(fields: &Fields, manager: &Manager, most: u64) -> bool
    requires group { AreOfGroup (data_of fields.now) }
    requires known { KnowsTablets (data_of fields.now) }
    requires addressed { AreAddressed (data_of fields.now) }
    ensures { result ≡ is_offered (data_of fields.now) most manager.now }
{
    waits_within(manager.stand(), most) && offer_to(fields, &manager.me().alias).is_some()
}

/// The first of these that waits for an entry that a log of this length has, and may be offered one.
fn first_offered(fields: &Fields, managers: &[Manager], most: u64) -> Option<Alias>
    requires group { AreOfGroup (data_of fields.now) }
    requires known { KnowsTablets (data_of fields.now) }
    requires addressed { AreAddressed (data_of fields.now) }
    ensures { result ≡ first_offered (data_of fields.now) most managers.now }
{
    let mut rest = managers;
    while let Some((manager, more)) = rest.split_first() {
        if is_offered(fields, manager, most) {
            return Some(manager.me().alias);
        }
        rest = more;
    }
    None
}

/// The first tablet, in alias order, that may be offered an entry.
///
/// It costs a few steps for each tablet, and what `offer_to` costs for each that waits for an entry which some source has, up to the first
/// that may be offered one.
pub fn offerable(fields: &Fields) -> Option<Alias>
    requires group { AreOfGroup (data_of fields.now) }
    requires known { KnowsTablets (data_of fields.now) }
    requires addressed { AreAddressed (data_of fields.now) }
    ensures { result ≡ next_offered (config_in (data_of fields.now)) (seen (data_of fields.now)) }
{
    let most = most_sent(fields.managers.as_slice());
    first_offered(fields, fields.managers.as_slice(), most)
}
