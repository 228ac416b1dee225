ghost use Rattle.std.specs.Prelude.{◌≡◌};
ghost use Rattle.shard_calls.specs.Stands.{is_down, is_primary, is_primary_of, is_replica_in, is_feeder_in, takes_from, standing_of};

use shard_names::Alias;

/// What a tablet does.
#[derive(Clone, Copy, Debug, PartialEq, Eq)]
pub enum Stand {
    /// It is down.
    Down,
    /// It is up, and neither writes nor replicates.
    Stopped,
    /// It takes writes as the primary of the term.
    Primary { term: u64 },
    /// It was the primary of `term`, and takes no more writes since `by`.
    Demoted { term: u64, by: u64 },
    /// It replicates from a source of the term. `next` is the index of the entry that it waits for.
    Replica { source: Alias, term: u64, next: u64 },
    /// It is stopped in the term, and sends its log to replicas of the term.
    Feeder { term: u64 },
}

/// A stand without the entry that a replica waits for.
#[derive(Clone, Copy, Debug, PartialEq, Eq)]
pub enum Standing {
    Down,
    Stopped,
    Primary { term: u64 },
    Demoted { term: u64, by: u64 },
    Replica { source: Alias, term: u64 },
    Feeder { term: u64 },
}

impl Stand {
    /// Whether it is down.
    pub fn is_down(&self) -> bool
        ensures { result ≡ is_down self.now }
    {
        match self {
            Stand::Down => true,
            _ => false,
        }
    }

    /// Whether it is a primary, of any term.
    pub fn is_primary(&self) -> bool
        ensures { result ≡ is_primary self.now }
    {
        match self {
            Stand::Primary { .. } => true,
            _ => false,
        }
    }

    /// Whether it is the primary of the term.
    pub fn is_primary_of(&self, term: u64) -> bool
        ensures { result ≡ is_primary_of self.now term }
    {
        match self {
            Stand::Primary { term: of } => *of == term,
            _ => false,
        }
    }

    /// Whether it is a replica in the term.
    pub fn is_replica_in(&self, term: u64) -> bool
        ensures { result ≡ is_replica_in self.now term }
    {
        match self {
            Stand::Replica { term: of, .. } => *of == term,
            _ => false,
        }
    }

    /// Whether it feeds replicas in the term.
    pub fn is_feeder_in(&self, term: u64) -> bool
        ensures { result ≡ is_feeder_in self.now term }
    {
        match self {
            Stand::Feeder { term: of } => *of == term,
            _ => false,
        }
    }

    /// Whether it takes the entry behind `after` from this source in this term.
    pub fn takes_from(&self, from: &Alias, term: u64, after: u64) -> bool
        ensures { result ≡ takes_from self.now from.now term after }
    {
        match self {
            Stand::Replica {
                source,
                term: of,
                next,
            } => { *source == *from && *of == term && *next == after }
            _ => false,
        }
    }

    /// The stand without the entry that a replica waits for.
    pub fn standing(&self) -> Standing
        ensures { result ≡ standing_of self.now }
    {
        match self {
            Stand::Down => Standing::Down,
            Stand::Stopped => Standing::Stopped,
            Stand::Primary { term } => Standing::Primary { term: *term },
            Stand::Demoted { term, by } => Standing::Demoted {
                term: *term,
                by: *by,
            },
            Stand::Replica { source, term, .. } => Standing::Replica {
                source: *source,
                term: *term,
            },
            Stand::Feeder { term } => Standing::Feeder { term: *term },
        }
    }
}
