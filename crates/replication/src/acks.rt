ghost use Rattle.std.specs.Prelude.{◌≡◌, ◌<◌, ◌↔◌, ℕ, max, length, replicate, position, MatchOption, get_or, set, IsTrue, IfOk, IfSome};
ghost use Rattle.shard_names.specs.Tablets.{AreTablets, alias_eq, is_among, is_declared, tablet_of};
ghost use Rattle.replication.specs.Acks.{aliases_of, acked_in, none_acked, raised};
ghost use Rattle.replication.specs.Places.{IsAt, IsNowhere};
ghost use Rattle.durability.specs.Sets.{is_accepted};
ghost use Rattle.replication.specs.Told.{holders, Told};

use crate::counting::{are_enough, find_tablet};
use durability::Policy;
use shard_base::OutOfMemory;
use shard_names::{Alias, Tablet};
use std::alloc::Global;
use std::marker::Model;

/// How far each tablet has acknowledged the log of a primary in its term. Indexes count from 1, and 0 stands for nothing.
#[derive(Drop)]
pub struct AckTable {
    aliases: Vec<Alias>,
    indexes: Vec<u64>,
}

impl Model for AckTable {
    ghost use Rattle.std.specs.Prelude.{◌≡◌, length};
    ghost use Rattle.replication.specs.Acks.{Acks};

    ghost Value = { Acks };

    ghost view = { λ a. record { aliases = a.aliases.items; indexes = a.indexes.items } };

    ghost invariant = { λ a. length a.indexes.items ≡ length a.aliases.items };
}

fn place_at(aliases: &[Alias], alias: &Alias) -> Option<usize>
    ensures { result ≡ position (λ a. alias_eq a alias.now) aliases.now }
{
    aliases.iter().position(|each| *each == *alias)
}

/// Where the alias stands.
fn find_place(aliases: &[Alias], alias: &Alias) -> Option<usize>
    ensures { MatchOption result (IsNowhere aliases.now alias.now) (λ k. (k < length aliases.now) × IsAt aliases.now alias.now k) }
{
    place_at(aliases, alias)
}

/// Writes 0 into each.
fn zero_all(indexes: &mut [u64])
    ensures zero { (k : ℕ) → k < length indexes.new → get_or indexes.new k 0 ≡ 0 }
    ensures len { length indexes.new ≡ length indexes.old }
{
    for index in indexes.iter_mut() {
        *index = 0;
    }
}

fn raise_at(indexes: &mut [u64], at: usize, index: u64)
    requires { at < length indexes.old }
    ensures raised { indexes.new ≡ set indexes.old at (max (get_or indexes.old at 0) index) }
    ensures len { length indexes.new ≡ length indexes.old }
{
    indexes[at] = indexes[at].max(index);
}

fn index_at(indexes: &[u64], at: usize) -> u64
    requires { at < length indexes.now }
    ensures { result ≡ get_or indexes.now at 0 }
{
    indexes[at]
}

fn zeros(alloc: Global, n: usize) -> Result<Vec<u64>, OutOfMemory>
    ensures { IfOk result (λ indexes. indexes.items ≡ replicate n 0) }
{
    let mut indexes = Vec::new(alloc);
    indexes.resize(n, 0)?;
    Ok(indexes)
}

fn copy_aliases(alloc: Global, tablets: &[Tablet]) -> Result<Vec<Alias>, OutOfMemory>
    ensures { IfOk result (λ aliases. aliases.items ≡ aliases_of tablets.now) }
{
    let mut aliases = Vec::new(alloc);
    for tablet in tablets {
        aliases.push(tablet.alias)?;
    }
    Ok(aliases)
}

impl AckTable {
    /// Nothing acknowledged by any of these tablets.
    pub fn new(alloc: Global, tablets: &[Tablet]) -> Result<AckTable, OutOfMemory>
        ensures aliases { IfOk result (λ table. table.aliases ≡ aliases_of tablets.now) }
        ensures acked { IfOk result (λ table. acked_in table ≡ none_acked) }
    {
        let aliases = copy_aliases(alloc, tablets)?;
        let indexes = zeros(alloc, aliases.len())?;
        Ok(AckTable { aliases, indexes })
    }

    /// Forgets what was acknowledged, as for a new term. It takes no memory.
    pub fn clear(&mut self)
        ensures aliases { self.new.aliases ≡ self.old.aliases }
        ensures acked { acked_in self.new ≡ none_acked }
    {
        zero_all(self.indexes.as_mut_slice());
    }

    /// The tablet, which is one of the table's, has acknowledged the log up to this index: its index is raised, if it is
    /// below. It takes no memory.
    pub fn ack(&mut self, alias: &Alias, index: u64)
        requires { IsTrue (is_among self.old.aliases alias.now) }
        ensures aliases { self.new.aliases ≡ self.old.aliases }
        ensures acked { acked_in self.new ≡ raised alias.now index (acked_in self.old) }
    {
        match find_place(self.aliases.as_slice(), alias) {
            Some(at) => raise_at(self.indexes.as_mut_slice(), at, index),
            None => unreachable!(),
        }
    }

    /// The greatest index that this tablet acknowledged; 0 where it acknowledged nothing or is none of the table's.
    pub fn acked(&self, alias: &Alias) -> u64
        ensures { result ≡ acked_in self.now alias.now }
    {
        match find_place(self.aliases.as_slice(), alias) {
            Some(at) => index_at(self.indexes.as_slice(), at),
            None => 0,
        }
    }

    /// Whether this index of the primary's log counts as committed: whether the policy accepts the set of the primary and
    /// the tablets that acknowledged at least this index. The table was made for these tablets, which are a shard's, and
    /// the primary is one of them. It takes no memory.
    pub fn is_told<P: Policy>(
        &self,
        policy: &P,
        tablets: &[Tablet],
        primary: &Alias,
        index: u64,
    ) -> bool
        requires made_for { self.now.aliases ≡ aliases_of tablets.now }
        requires shard { AreTablets tablets.now }
        requires declared { IsTrue (is_declared tablets.now primary.now) }
        ensures told { IfSome (tablet_of tablets.now primary.now) (λ t.
            IsTrue result ↔ Told (P.rules policy.now) tablets.now t (acked_in self.now) index) }
        ensures tested { IfSome (tablet_of tablets.now primary.now) (λ t.
            result ≡ is_accepted (P.rules policy.now) tablets.now t (holders (acked_in self.now) t.alias index)) }
    {
        match find_tablet(tablets, primary) {
            Some(tablet) => are_enough(policy, tablets, self.indexes.as_slice(), tablet, index),
            None => unreachable!(),
        }
    }
}
