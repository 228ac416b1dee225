/// Why a command gave up a call.
#[derive(Clone, Copy, Debug, PartialEq, Eq)]
pub enum Why {
    /// The tablet is down.
    Down,
    /// Its link to the command is cut.
    Cut,
    /// The call was lost, or all its answers were.
    Lost,
    /// No answer came in time. The moments are those of the call and of giving up, in milliseconds since the start of 1970.
    TimedOut { since: u64, now: u64 },
}
