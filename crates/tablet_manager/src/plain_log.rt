ghost use Rattle.std.specs.Prelude.{◌≡◌, ◌<◌, ◌-◌, ◌^◌, [], ◌∷◌, ◌++◌, nat_eq, position, reverse, vec_len, vec_capacity, OnOk, OnErr, IfOk};
ghost use Rattle.gtid_sets.specs.Position.{with_gtid, minus};
ghost use Rattle.gtid_sets.specs.Logs.{position_of, holds, newest_row, row_or_zero, is_row_of, has_row, rows_of, place_of_row};
ghost use Rattle.std.specs.List.{list_any};
ghost use Rattle.tablet_manager.specs.Rows.{place_after};

use gtid_sets::{Entry, Gtid, GtidSet, Kind, minus};
use shard_base::OutOfMemory;
use std::alloc::Global;
use std::marker::Model;

/// A tablet's log and terms, kept in memory alone. Its position, and the terms of its rows with the newest of them, are kept beside
/// the entries.
#[derive(Drop)]
pub struct PlainLog {
    entries: Vec<Entry>,
    held: GtidSet,
    rows: Vec<u64>,
    seen: u64,
    promised: u64,
    newest: u64,
    newest_at: Option<u64>,
}

impl Model for PlainLog {
    ghost use Rattle.tablet_manager.specs.LogState.{LogState};

    ghost Value = { LogState };

    ghost use Rattle.tablet_manager.specs.PlainLog.{state_of, IsKept};

    ghost view = { state_of };

    ghost invariant = { IsKept };
}

/// The term of a row, and 0 of any other entry.
fn row_or_zero(entry: &Entry) -> u64
    ensures { result ≡ row_or_zero entry.now }
{
    match &entry.kind {
        Kind::Write { .. } => 0,
        Kind::Row { term, .. } => *term,
        Kind::Local => 0,
    }
}

/// Whether the entry is the row of the term.
fn is_row_of(entry: &Entry, term: u64) -> bool
    ensures { result ≡ is_row_of term entry.now }
{
    match &entry.kind {
        Kind::Write { .. } => false,
        Kind::Row { term: of, .. } => *of == term,
        Kind::Local => false,
    }
}

/// The place of the row of the term.
fn find_row(entries: &[Entry], term: u64) -> Option<usize>
    ensures { result ≡ position (is_row_of term) entries.now }
{
    entries.iter().position(|entry| is_row_of(entry, term))
}

/// The index of the newest row, once such an entry comes behind so many others.
fn place_after(newest: u64, at: Option<u64>, count: u64, kind: &Kind) -> Option<u64>
    requires { count < 2 ^ 64 - 1 }
    ensures { result ≡ place_after newest at count kind.now }
{
    match kind {
        Kind::Write { .. } => at,
        Kind::Row { term, .. } => {
            if *term > newest {
                return Some(count + 1);
            }
            if *term == newest {
                return Some(at.unwrap_or(count + 1));
            }
            at
        }
        Kind::Local => at,
    }
}

/// Whether the term is one of these. It is looked for from the end.
fn is_among(terms: &[u64], term: u64) -> bool
    ensures { result ≡ list_any (λ t. nat_eq t term) (reverse terms.now) }
{
    terms.iter().rev().any(|of| *of == term)
}

/// The term of a row is one of the terms; any other entry changes nothing.
fn push_row(rows: &mut Vec<u64>, entry: &Entry)
    requires { vec_len rows.old < vec_capacity rows.old }
    ensures { rows.new.items ≡ rows.old.items ++ rows_of (entry.now ∷ []) }
{
    match &entry.kind {
        Kind::Write { .. } => {}
        Kind::Row { term, .. } => rows.push_reserved(*term),
        Kind::Local => {}
    }
}

fn push_entry(entries: &mut Vec<Entry>, entry: &Entry)
    requires { vec_len entries.old < vec_capacity entries.old }
    ensures { entries.new.items ≡ entries.old.items ++ entry.now ∷ [] }
{
    let Entry { gtid, kind } = entry;
    entries.push_reserved(Entry {
        gtid: *gtid,
        kind: *kind,
    });
}

/// Puts an entry at the end, and its transaction into the set. Want of memory leaves both as they were.
fn append_to(
    entries: &mut Vec<Entry>,
    held: &mut GtidSet,
    rows: &mut Vec<u64>,
    entry: &Entry,
) -> Result<(), OutOfMemory>
    ensures ok_entries { OnOk result (entries.new.items ≡ entries.old.items ++ entry.now ∷ []) }
    ensures ok_held { OnOk result (held.new ≡ with_gtid held.old entry.now.gtid) }
    ensures ok_rows { OnOk result (rows.new.items ≡ rows.old.items ++ rows_of (entry.now ∷ [])) }
    ensures err_entries { OnErr result (entries.new.items ≡ entries.old.items) }
    ensures err_held { OnErr result (held.new ≡ held.old) }
    ensures err_rows { OnErr result (rows.new.items ≡ rows.old.items) }
{
    entries.reserve(1)?;
    rows.reserve(1)?;
    held.add(entry.gtid)?;
    push_entry(entries, entry);
    push_row(rows, entry);
    Ok(())
}

impl PlainLog {
    /// An empty log, with no term seen or promised. It takes no memory.
    pub fn new(alloc: Global) -> PlainLog
        ensures { result ≡ record { entries = []; seen = 0; promised = 0 } }
    {
        PlainLog {
            entries: Vec::new(alloc),
            held: GtidSet::empty(alloc),
            rows: Vec::new(alloc),
            seen: 0,
            promised: 0,
            newest: 0,
            newest_at: None,
        }
    }

    /// The entries, the first one first.
    pub fn entries(&self) -> &[Entry]
        ensures { result.now ≡ self.now.entries }
    {
        self.entries.as_slice()
    }

    /// The position of the log.
    pub fn held(&self) -> &GtidSet
        ensures { result.now ≡ position_of self.now.entries }
    {
        &self.held
    }

    /// The greatest term of a call that was not refused as stale.
    pub fn seen(&self) -> u64
        ensures { result ≡ self.now.seen }
    {
        self.seen
    }

    /// The term below which nothing more is accepted.
    pub fn promised(&self) -> u64
        ensures { result ≡ self.now.promised }
    {
        self.promised
    }

    /// The greatest term of a row in the log, or 0.
    pub fn newest_row(&self) -> u64
        ensures { result ≡ newest_row self.now.entries }
    {
        self.newest
    }

    /// The index of the first row of that term, counted from 1, if there is a row.
    pub fn newest_at(&self) -> Option<u64>
        ensures { result ≡ place_of_row self.now.entries (newest_row self.now.entries) }
    {
        self.newest_at
    }

    /// The index of the row of the term, counted from 1, if the log has the row. Of the newest row it is known; for any other the log is
    /// searched.
    pub fn row_at(&self, term: u64) -> Option<u64>
        ensures { result ≡ place_of_row self.now.entries term }
    {
        if term == self.newest {
            return self.newest_at;
        }
        match find_row(self.entries.as_slice(), term) {
            Some(at) => Some(at as u64 + 1),
            None => None,
        }
    }

    /// Whether the log has the transaction.
    pub(crate) fn holds(&self, gtid: Gtid) -> bool
        ensures { result ≡ holds self.now.entries gtid }
    {
        self.held.contains(gtid)
    }

    /// Whether the log has the row of the term. Of a term above the newest row's it is known; any other is looked for from the end.
    pub fn has_row(&self, term: u64) -> bool
        ensures { result ≡ has_row self.now.entries term }
    {
        if term > self.newest {
            return false;
        }
        is_among(&self.rows, term)
    }

    /// The transactions of a position that the log has not.
    pub(crate) fn missing_of(&self, position: &GtidSet) -> Result<GtidSet, OutOfMemory>
        ensures { IfOk result (λ missing. missing ≡ minus position.now (position_of self.now.entries)) }
    {
        minus(*self.entries.allocator(), position, &self.held)
    }

    /// The transactions of the log that a position has not.
    pub(crate) fn beyond(&self, position: &GtidSet) -> Result<GtidSet, OutOfMemory>
        ensures { IfOk result (λ extra. extra ≡ minus (position_of self.now.entries) position.now) }
    {
        minus(*self.entries.allocator(), &self.held, position)
    }

    /// The position of the log with one transaction more.
    pub(crate) fn held_with(&self, entry: &Entry) -> Result<GtidSet, OutOfMemory>
        ensures { IfOk result (λ position. position ≡ position_of (self.now.entries ++ entry.now ∷ [])) }
    {
        let mut position = self.held.copy()?;
        position.add(entry.gtid)?;
        Ok(position)
    }

    /// Puts an entry at the end. Want of memory leaves the log as it was.
    pub(crate) fn append(&mut self, entry: &Entry) -> Result<(), OutOfMemory>
        ensures ok { OnOk result (self.new ≡ record self.old { entries = self.old.entries ++ entry.now ∷ [] }) }
        ensures err { OnErr result (self.new ≡ self.old) }
    {
        let count = self.entries.len() as u64;
        let newest_at = place_after(self.newest, self.newest_at, count, &entry.kind);
        append_to(&mut self.entries, &mut self.held, &mut self.rows, entry)?;
        self.newest = self.newest.max(row_or_zero(entry));
        self.newest_at = newest_at;
        Ok(())
    }

    /// Keeps a seen term.
    pub(crate) fn see(&mut self, term: u64)
        ensures { self.new ≡ record self.old { seen = term } }
    {
        self.seen = term;
    }

    /// Keeps a promise.
    pub(crate) fn promise(&mut self, term: u64)
        ensures { self.new ≡ record self.old { promised = term } }
    {
        self.promised = term;
    }
}
