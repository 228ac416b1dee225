//! What a source sends to a replica: the first entry that the replica needs. It is looked for from both ends of the
//! source's log, so that it is found soon where the replica has nearly all of the log, and where it has just begun.

ghost use Rattle.std.specs.Prelude.{◌≡◌, ◌||◌, ◌&&◌, ◌<◌, ◌≤◌, ◌+◌, ◌-◌, ℕ, nat_lt, not, false, if◌then◌else◌};
ghost use Rattle.gtid_sets.specs.Logs.{holds};
ghost use Rattle.shard_calls.specs.Messages.{feeds_term, sends_all_from, has_come_to, feed_of};
ghost use Rattle.tablet_manager.specs.Managed.{state_of};
ghost use Rattle.arrivals.specs.Feeding.{fed_of, lacks, how_many_lack, needed_of, needed_behind};

use gtid_sets::{Entry, Gtid, covers};
use shard_calls::{Content, Stand};
use shard_names::Alias;
use tablet_manager::{Manager, PlainLog};

/// Whether a tablet that stands so sends its log to the replicas of the term.
pub(crate) fn feeds_term(stand: &Stand, term: u64) -> bool
    ensures { result ≡ feeds_term stand.now term }
{
    match stand {
        Stand::Down => false,
        Stand::Stopped => false,
        Stand::Primary { term: of } => *of == term,
        Stand::Demoted { term: of, .. } => *of == term,
        Stand::Replica { .. } => false,
        Stand::Feeder { term: of } => *of == term,
    }
}

/// The index from which on a source sends every entry: that of its newest row, unless it only feeds.
pub(crate) fn sends_all_from(source: &Manager) -> Option<u64>
    ensures { result ≡ sends_all_from (state_of source.now) }
{
    match source.stand() {
        Stand::Feeder { .. } => None,
        _ => source.log().newest_at(),
    }
}

fn has_come_to(row: Option<u64>, index: u64) -> bool
    ensures { result ≡ has_come_to row index }
{
    match row {
        Some(row) => row <= index,
        None => false,
    }
}

/// Whether the log has the transaction.
fn holds(log: &PlainLog, gtid: Gtid) -> bool
    ensures { result ≡ holds log.now.entries gtid }
{
    log.held().contains(gtid)
}

/// Whether a replica with this log needs the entry: it has it not, or its source sends every entry from that index on.
fn needs(log: &PlainLog, entry: &Entry, row: Option<u64>, index: u64) -> bool
    ensures { result ≡ (not (holds log.now.entries entry.now.gtid) || has_come_to row index) }
{
    has_come_to(row, index) || !holds(log, entry.gtid)
}

fn fed(from: &Alias, to: &Alias, term: u64, after: u64, index: u64, entry: &Entry) -> Content
    ensures { result ≡ feed_of from.now to.now term after (record { index = index; entry = entry.now }) }
{
    Content::Feeds {
        from: *from,
        to: *to,
        term,
        after,
        index,
        entry: *entry,
    }
}

/// At least how many entries of the source's log a replica has not: by the number of those that it has, where the
/// source has them too.
fn most_lacking(source: &PlainLog, replica: &PlainLog) -> usize
    ensures { how_many_lack replica.now.entries source.now.entries ≤ result }
{
    let all = source.entries().len();
    if !covers(source.held(), replica.held()) {
        return all;
    }
    (all as u128).saturating_sub(replica.held().count()) as usize
}

/// How many entries from this index on come before the row, up to so many.
fn steps_before(row: Option<u64>, index: u64, most: usize) -> usize
    ensures most { result ≤ most }
    ensures before { (k : ℕ) → k < result → has_come_to row (index + k) ≡ false }
{
    match row {
        Some(row) => (row.saturating_sub(index) as usize).min(most),
        None => most,
    }
}

/// One if the replica has not the entry.
fn lacking(log: &PlainLog, entry: &Entry) -> usize
    ensures { result ≡ (if lacks log.now.entries entry.now then 1 else 0) }
{
    if holds(log, entry.gtid) { 0 } else { 1 }
}

/// Whether there are places between the two, and entries that the replica has not.
fn goes_on(front: usize, back: usize, left: usize) -> bool
    ensures { result ≡ (nat_lt front back && nat_lt 0 left) }
{
    front < back && left > 0
}

/// A place before which the replica needs no entry, of those from `next` on. It looks from both ends of the log at
/// once, and is done at the first that is needed, or where it has found from the end as many as the replica has not:
/// then the replica has all that is left between, and the place is the row's, or that of the last one found.
fn place_between(source: &PlainLog, row: Option<u64>, replica: &PlainLog, next: u64) -> usize
    ensures behind { next - 1 ≤ result }
    ensures same { needed_of source.now.entries row replica.now.entries next ≡ needed_behind source.now.entries row replica.now.entries next result }
{
    let entries = source.entries();
    let start = next.saturating_sub(1) as usize;
    if start >= entries.len() {
        return start;
    }
    let mut front = start;
    let mut back = entries.len();
    let mut left = most_lacking(source, replica);
    while goes_on(front, back, left) {
        if needs(replica, &entries[front], row, next + (front - start) as u64) {
            return front;
        }
        front += 1;
        back -= 1;
        left -= lacking(replica, &entries[back]);
    }
    front
        + steps_before(
            row,
            next + (front - start) as u64,
            back.saturating_sub(front),
        )
}

/// A place before which the replica needs no entry, of those from `next` on. From the row on it needs each.
fn place_of(source: &PlainLog, row: Option<u64>, replica: &PlainLog, next: u64) -> usize
    ensures behind { next - 1 ≤ result }
    ensures same { needed_of source.now.entries row replica.now.entries next ≡ needed_behind source.now.entries row replica.now.entries next result }
{
    if has_come_to(row, next) {
        return next.saturating_sub(1) as usize;
    }
    place_between(source, row, replica, next)
}

/// The first entry that a replica which waits for `next` needs of its source, as the source sends it in the term. From `row` on the
/// source sends every entry, and of the others those that the replica has not.
///
/// Where `next` is not before the row it costs a few steps. Else it costs those to compare the sets of what the two
/// have, and to look up each entry from `next` on before the one that is needed, or each from the end of the log back
/// to the first that the replica has not, whichever are fewer.
pub(crate) fn feed(
    source: &PlainLog,
    row: Option<u64>,
    replica: &PlainLog,
    from: &Alias,
    to: &Alias,
    term: u64,
    next: u64,
) -> Option<Content>
    ensures { result ≡ fed_of source.now.entries row replica.now.entries from.now to.now term next }
{
    let entries = source.entries();
    let start = next.saturating_sub(1) as usize;
    for at in place_of(source, row, replica, next)..entries.len() {
        let index = next + (at - start) as u64;
        let entry = &entries[at];
        if needs(replica, entry, row, index) {
            return Some(fed(from, to, term, next, index, entry));
        }
    }
    None
}
