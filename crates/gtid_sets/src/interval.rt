ghost use Rattle.std.specs.Prelude.{◌≡◌, ◌≤◌, ◌^◌};
ghost use Rattle.gtid_sets.specs.Intervals.{start, size, holds, ends_below, touches, contains, stands_before, below, above, wide, joined};

use crate::Gtid;
use std::cmp::Ordering;
use uuid::Uuid;

/// The transactions of a server from one number to another. Where the first is above the last there are none.
#[derive(Clone, Copy, PartialEq, Eq)]
pub struct Interval {
    pub server: Uuid,
    pub first: u64,
    pub last: u64,
}

impl Interval {
    /// How many transactions there are.
    pub fn count(&self) -> u128
        ensures value { result ≡ size self.now }
        ensures bounded { result ≤ 2 ^ 64 }
    {
        (u128::from(self.last) + 1).saturating_sub(u128::from(self.first))
    }

    /// Whether a transaction is one of them.
    pub fn holds(&self, gtid: &Gtid) -> bool
        ensures { result ≡ holds self.now gtid.now }
    {
        gtid.server == self.server && self.first <= gtid.number && gtid.number <= self.last
    }

    /// Whether the interval has all of another, which has some.
    pub(crate) fn contains(&self, other: &Interval) -> bool
        ensures { result ≡ contains self.now other.now }
    {
        other.server == self.server && self.first <= other.first && other.last <= self.last
    }

    /// The first transaction.
    pub(crate) fn start(&self) -> Gtid
        ensures { result ≡ start self.now }
    {
        Gtid {
            server: self.server,
            number: self.first,
        }
    }

    /// Whether it ends below a transaction and does not touch it.
    pub(crate) fn ends_below(&self, gtid: &Gtid) -> bool
        ensures { result ≡ ends_below gtid.now self.now }
    {
        match self.server.cmp(&gtid.server) {
            Ordering::Less => true,
            Ordering::Equal => self.last < gtid.number.saturating_sub(1),
            Ordering::Greater => false,
        }
    }

    /// Whether it has a transaction or is next to it.
    pub(crate) fn touches(&self, gtid: &Gtid) -> bool
        ensures { result ≡ touches gtid.now self.now }
    {
        gtid.server == self.server
            && self.first.saturating_sub(1) <= gtid.number
            && gtid.number.saturating_sub(1) <= self.last
    }

    /// Whether all of it stands below all of another.
    pub(crate) fn stands_before(&self, other: &Interval) -> bool
        ensures { result ≡ stands_before self.now other.now }
    {
        match self.server.cmp(&other.server) {
            Ordering::Less => true,
            Ordering::Equal => self.last < other.first,
            Ordering::Greater => false,
        }
    }

    /// Its part below another.
    pub(crate) fn below(&self, other: &Interval) -> Option<Interval>
        ensures { result ≡ below self.now other.now }
    {
        match self.server.cmp(&other.server) {
            Ordering::Less => Some(*self),
            Ordering::Equal if self.first < other.first => Some(Interval {
                server: self.server,
                first: self.first,
                last: self.last.min(other.first - 1),
            }),
            _ => None,
        }
    }

    /// Its part above another.
    pub(crate) fn above(&self, other: &Interval) -> Option<Interval>
        ensures { result ≡ above self.now other.now }
    {
        match self.server.cmp(&other.server) {
            Ordering::Greater => Some(*self),
            Ordering::Equal if other.last < self.last => Some(Interval {
                server: self.server,
                first: self.first.max(other.last + 1),
                last: self.last,
            }),
            _ => None,
        }
    }

    /// It and a transaction of its server that touches it.
    pub(crate) fn widened(&self, gtid: &Gtid) -> Interval
        ensures { result ≡ wide gtid.now self.now }
    {
        Interval {
            server: self.server,
            first: self.first.min(gtid.number),
            last: self.last.max(gtid.number),
        }
    }

    /// It and all up to the last of another.
    pub(crate) fn joined(&self, other: &Interval) -> Interval
        ensures { result ≡ joined self.now other.now }
    {
        Interval {
            server: self.server,
            first: self.first,
            last: self.last.max(other.last),
        }
    }
}
