ghost use Rattle.std.specs.Prelude.{◌≡◌, ◌+◌, ◌-◌, ◌^◌, ◌<◌, ◌↔◌, IsTrue, if◌then◌else◌};
ghost use Rattle.replication.specs.Streams.{IsAwaited};

use shard_names::Alias;

/// What a replica takes: entries of one source in one term, from an index of the source's log on.
#[derive(Clone, Copy, Debug, PartialEq, Eq)]
pub struct Stream {
    /// The tablet that sends.
    pub source: Alias,
    /// The term in which it is the primary.
    pub term: u64,
    /// The index of the source's log at which it waits. Indexes count from 1.
    pub next: u64,
}

impl Stream {
    /// Whether an entry is taken, which `from` sent in this term to one that waits at `after`, and which has this index in
    /// the sender's log. Where it is, the stream waits behind it; else nothing changes. It takes no memory.
    pub fn accept(&mut self, from: &Alias, term: u64, after: u64, index: u64) -> bool
        requires { index < 2 ^ 64 - 1 }
        ensures awaited { IsTrue result ↔ IsAwaited self.old from.now term after }
        ensures moved { self.new ≡ record self.old { next = if result then index + 1 else self.old.next } }
    {
        let awaited = *from == self.source && term == self.term && after == self.next;
        if awaited {
            let next = index + 1;
            self.next = next;
        }
        awaited
    }
}
