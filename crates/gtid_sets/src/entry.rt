use crate::Gtid;
use shard_names::Alias;

/// What an entry of a log records.
#[derive(Clone, Copy, PartialEq, Eq)]
pub enum Kind {
    /// A client's write, in the term of the primary that took it. The number counts that client's writes, from 1.
    Write { term: u64, client: u32, number: u64 },
    /// The row of a term: the first entry of the tablet that was promoted in it.
    Row { term: u64, alias: Alias },
    /// A write at a server that went round the primary, in no term.
    Local,
}

/// An entry of a log.
#[derive(Clone, Copy, PartialEq, Eq)]
pub struct Entry {
    pub gtid: Gtid,
    pub kind: Kind,
}
