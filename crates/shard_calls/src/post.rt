use crate::{Answer, Call, Why};
use gtid_sets::Entry;
use shard_names::Alias;

/// What a message carries.
#[derive(Drop)]
pub enum Content {
    /// A command's call in its term, or in term 0 if it has none.
    Asks {
        command: u64,
        term: u64,
        to: Alias,
        call: Call,
    },
    /// A tablet's answer to the call with the number `asked`, back to the command.
    Answers {
        command: u64,
        asked: u64,
        from: Alias,
        answer: Answer,
    },
    /// The entry with this index of the source's log, for a replica that waits for what comes behind `after`.
    Feeds {
        from: Alias,
        to: Alias,
        term: u64,
        after: u64,
        index: u64,
        entry: Entry,
    },
    /// That a replica has the first `index` entries of its source.
    Acks {
        from: Alias,
        to: Alias,
        term: u64,
        index: u64,
    },
}

/// What first settled a call.
#[derive(Clone, Copy, Debug, PartialEq, Eq)]
pub enum Settled {
    /// The delivery of the answer with this number.
    Answered { message: u64 },
    /// That it was given up.
    GaveUp { why: Why },
}

/// A message that was sent, and what became of it. Moments are in milliseconds since the start of 1970.
#[derive(Drop)]
pub struct Message {
    pub content: Content,
    pub sent: u64,
    /// When it first came to its receiver.
    pub arrived: Option<u64>,
    pub lost: bool,
    /// What first settled it, if it is a call.
    pub settled: Option<Settled>,
}
