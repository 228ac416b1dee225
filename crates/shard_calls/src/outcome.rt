use crate::Stand;
use gtid_sets::Gtid;

/// Whether a tablet takes an entry that a source sent.
#[derive(Clone, Copy, Debug, PartialEq, Eq)]
pub enum Accepted {
    /// The entry stands in the log now, if it did not before.
    Taken,
    /// The tablet does not replicate from there in this term, or waits for another entry.
    Ignored,
}

/// What comes of a write.
#[derive(Clone, Copy, PartialEq, Eq)]
pub enum Written {
    /// It was written as this transaction.
    Entry(Gtid),
    /// The tablet does not take it, since it stands so.
    NotPrimary(Stand),
}

/// What comes of a restart.
#[derive(Clone, Copy, Debug, PartialEq, Eq)]
pub enum Restarted {
    /// It is up again.
    Up,
    /// It was up already, and nothing changed.
    WasUp,
}
