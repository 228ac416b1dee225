/// Why a note was not kept. The shard then stands as it was.
#[derive(Clone, Copy, Debug, PartialEq, Eq)]
pub enum Halt {
    OutOfMemory,
    /// The history has all the notes that it may have.
    Full,
}
