use gtid_sets::GtidSet;
use shard_names::Alias;

/// What a command asks of a tablet. Each call comes with the term of its command.
#[derive(Clone, Drop)]
pub enum Call {
    /// How it stands. This changes nothing, and is answered in every term.
    Status,
    /// To replicate and write no more, and to promise the term.
    Stop,
    /// To take no more writes as the primary, and to promise the term.
    Demote,
    /// To become the primary of the term, if the log covers the position.
    Promote {
        position: GtidSet,
    },
    /// To replicate from a source that stands primary of the term `stand`, if the log lies within the position.
    SetSource {
        source: Alias,
        stand: u64,
        position: GtidSet,
    },
    /// To send its log to replicas, as the tablet that the term has stopped.
    Feed,
    /// To say, by this moment in milliseconds since the start of 1970, whether its log covers the position.
    WaitFor {
        position: GtidSet,
        until: u64,
    },
    /// To say, by this moment in milliseconds since the start of 1970, whether the row of the term counts as committed.
    WaitTold {
        until: u64,
    },
}
