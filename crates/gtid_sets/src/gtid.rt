ghost use Rattle.std.specs.Prelude.{◌≡◌, ◌++◌, OnOk, OnErr};
ghost use Rattle.gtid_sets.specs.Gtid.{gtid_text};

use itoa::Buffer;
use shard_base::{OutOfMemory, append_pieces};
use uuid::Uuid;

/// A transaction: the server that wrote it first, and its number there, from 1. The order is by server, then by number.
#[derive(Clone, Copy, PartialEq, Eq, PartialOrd, Ord)]
pub struct Gtid {
    pub server: Uuid,
    pub number: u64,
}

impl Gtid {
    /// Appends the server, a colon and the number, as MySQL prints a GTID. Want of memory leaves the text as it was.
    pub fn write(&self, into: &mut Vec<u8>) -> Result<(), OutOfMemory>
        ensures ok { OnOk result (into.new.items ≡ into.old.items ++ gtid_text self.now) }
        ensures err { OnErr result (into.new.items ≡ into.old.items) }
    {
        let mut room = Uuid::encode_buffer();
        let server = self.server.hyphenated();
        let server = server.encode_lower(&mut room);
        let mut digits = Buffer::new();
        let number = digits.format(self.number);
        append_pieces(into, &[server.as_bytes(), b":", number.as_bytes()])
    }
}
