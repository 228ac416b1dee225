ghost use Rattle.std.specs.Prelude.{◌≡◌, ◌↔◌, IsTrue, IfOk, OnOk, OnErr};
ghost use Rattle.gtid_sets.specs.Position.{nothing, with_gtid, has, count, union, minus, covers};
ghost use Rattle.gtid_sets.specs.Intervals.{Ordered, holds, within, position_of};

use crate::intervals::{self, Taken};
use crate::{Gtid, Interval};
use shard_base::OutOfMemory;
use std::alloc::{AllocError, Global};
use std::marker::Model;

/// A set of transactions, as the position of a log is. It keeps the allocator that it was made with.
/// It costs what its intervals cost, however many transactions they have.
#[derive(Drop)]
pub struct GtidSet {
    intervals: Vec<Interval>,
}

impl Model for GtidSet {
    ghost use Rattle.gtid_sets.specs.Position.{Position};
    ghost use Rattle.gtid_sets.specs.StoredPosition.{coded_position};

    ghost Value = { Position };

    ghost coded = { coded_position };

    ghost use Rattle.gtid_sets.specs.Intervals.{Ordered, position_of};

    ghost view = { λ a. position_of a.intervals.items };

    ghost invariant = { λ a. Ordered a.intervals.items };
}

impl PartialEq for GtidSet {
    ghost use Rattle.gtid_sets.specs.StoredPosition.{position_eq, position_per};

    ghost eq = { position_eq };

    ghost laws = { position_per };

    fn eq(&self, other: &Self) -> bool {
        self.intervals == other.intervals
    }
}

impl Clone for GtidSet {
    ghost use Rattle.std.specs.Prelude.{◌≡◌};

    ghost is_clone = { λ a b. b ≡ a };

    fn clone(&self) -> Result<GtidSet, AllocError> {
        let intervals = Vec::from_slice(*self.intervals.allocator(), self.intervals.as_slice())?;
        Ok(GtidSet { intervals })
    }
}

impl GtidSet {
    /// The empty set. It takes no memory.
    pub fn empty(alloc: Global) -> GtidSet
        ensures { result ≡ nothing }
    {
        GtidSet {
            intervals: Vec::new(alloc),
        }
    }

    /// The transactions of an interval.
    pub fn of_interval(alloc: Global, interval: &Interval) -> Result<GtidSet, OutOfMemory>
        ensures { IfOk result (λ set. (gtid : Gtid) → has set gtid ≡ holds interval.now gtid) }
    {
        let intervals = intervals::of_one(alloc, interval)?;
        Ok(GtidSet { intervals })
    }

    /// The transactions of intervals in any order, which it puts in order.
    pub(crate) fn of_intervals(
        alloc: Global,
        intervals: &mut Vec<Interval>,
    ) -> Result<GtidSet, OutOfMemory>
        ensures { IfOk result (λ set. set ≡ position_of intervals.old.items) }
    {
        let intervals = intervals::of_all(alloc, intervals)?;
        Ok(GtidSet { intervals })
    }

    /// How many transactions are in the set.
    pub fn count(&self) -> u128
        ensures { result ≡ count self.now }
    {
        intervals::count(self.intervals.as_slice())
    }

    /// The same set once more.
    pub fn copy(&self) -> Result<GtidSet, OutOfMemory>
        ensures { IfOk result (λ copy. copy ≡ self.now) }
    {
        Ok(self.clone()?)
    }

    /// The intervals that the set keeps: in order, none empty, none touching another. It takes no memory.
    pub fn intervals(&self) -> &Vec<Interval>
        ensures in_order { Ordered result.now.items }
        ensures members { (gtid : Gtid) → has self.now gtid ≡ within result.now.items gtid }
    {
        &self.intervals
    }

    /// Whether a transaction is in the set.
    pub fn contains(&self, gtid: Gtid) -> bool
        ensures { result ≡ has self.now gtid }
    {
        intervals::has(self.intervals.as_slice(), &gtid)
    }

    /// Puts a transaction into the set. Want of memory leaves the set as it was.
    pub fn add(&mut self, gtid: Gtid) -> Result<(), OutOfMemory>
        ensures ok { OnOk result (self.new ≡ with_gtid self.old gtid) }
        ensures err { OnErr result (self.new ≡ self.old) }
    {
        intervals::put(&mut self.intervals, &gtid)
    }
}

/// Whether the first set has every transaction of the second.
pub fn covers(a: &GtidSet, b: &GtidSet) -> bool
    ensures { result ≡ covers a.now b.now }
{
    intervals::covers(a.intervals.as_slice(), b.intervals.as_slice())
}

/// Whether the two sets have the same transactions.
pub fn equal(a: &GtidSet, b: &GtidSet) -> bool
    ensures { IsTrue result ↔ (a.now ≡ b.now) }
{
    a == b
}

/// The transactions of either set.
pub fn union(alloc: Global, a: &GtidSet, b: &GtidSet) -> Result<GtidSet, OutOfMemory>
    ensures { IfOk result (λ set. set ≡ union a.now b.now) }
{
    let first = a.intervals.as_slice();
    let second = b.intervals.as_slice();
    let intervals = intervals::combined(alloc, first, second, Taken::Either)?;
    Ok(GtidSet { intervals })
}

/// The transactions of the first set that the second has not.
pub fn minus(alloc: Global, a: &GtidSet, b: &GtidSet) -> Result<GtidSet, OutOfMemory>
    ensures { IfOk result (λ set. set ≡ minus a.now b.now) }
{
    let first = a.intervals.as_slice();
    let second = b.intervals.as_slice();
    let intervals = intervals::combined(alloc, first, second, Taken::FirstAlone)?;
    Ok(GtidSet { intervals })
}
