use shard_names::Alias;

/// That a term is to promote a tablet.
#[derive(Clone, Copy, Debug, PartialEq, Eq)]
pub struct Intent {
    pub term: u64,
    pub alias: Alias,
}

/// The primary on record: the tablet, the term of the intent that named it, and the moment when it was recorded, in
/// milliseconds since the start of 1970.
#[derive(Clone, Copy, Debug, PartialEq, Eq)]
pub struct Record {
    pub alias: Alias,
    pub term: u64,
    pub moment: u64,
}
