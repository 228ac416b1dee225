ghost use Rattle.std.specs.Prelude.{◌≡◌, ◌≤◌, ◌<◌, ℕ, ◌-◌, ◌^◌, List, [], length, drop, Some, IfOk, OnOk, OnErr, IsErrOf};
ghost use Rattle.std.specs.declared.option.Option.{Option};
ghost use Rattle.std.specs.Io.{ReadsAtMost};
ghost use Rattle.std.specs.Io.KnownBytes.{Consumes, ReadConsumes, IsAtEnd};
ghost use Rattle.shard_base.specs.Faults.{HasCause, Rose};
ghost use Rattle.shard_top.specs.Streams.{WasRead, Reads, ConsumesFront};

use std::alloc::Global;
use thiserror::Error;

/// A source or a sink failed.
#[derive(Clone, Copy, Debug, PartialEq, Eq, Error)]
#[error("the stream failed")]
pub struct Failed;

/// Where the script comes from.
pub trait Source {
    /// The bytes that are left, where it tells them.
    ghost left: { Self → Option (List ℕ) };

    /// How often it has failed. The count stops at the last value of u64.
    ghost faults: { Self → ℕ };

    /// Moves the next bytes into the room, and says how many. For room that is not empty, 0 is the end. A call that fails takes no
    /// byte.
    fn take(&mut self, room: &mut [u8]) -> Result<usize, Failed>
        ensures bound { ReadsAtMost result room.new }
        ensures bytes { ReadConsumes (left self.old) (left self.new) result room.new }
        ensures cause { HasCause (faults self.old) (faults self.new) result };
}

/// Why a script could not be read.
#[derive(Clone, Copy, Debug, PartialEq, Eq, Error)]
pub enum ReadFault {
    /// The source failed.
    #[error("the source failed")]
    Failed,
    #[error("out of memory")]
    OutOfMemory,
}

/// The most bytes of a script, and one more.
const PAST_MOST_BYTES: usize = 1048577;

/// Adds the next bytes to the text, and says how many.
fn read_some<S: Source>(source: &mut S, text: &mut Vec<u8>) -> Result<usize, ReadFault>
    requires { length text.old.items < 1048577 }
    ensures bytes { IfOk result (λ n. Reads (S.left source.old) (S.left source.new) text.old.items text.new.items n) }
    ensures lost { OnErr result (ConsumesFront (S.left source.old) (S.left source.new)) }
    ensures calm { OnOk result (S.faults source.new ≡ S.faults source.old) }
    ensures dry { IsErrOf result ReadFault.OutOfMemory → S.faults source.new ≡ S.faults source.old }
    ensures later { S.faults source.old ≤ S.faults source.new }
    ensures cause { IsErrOf result ReadFault.Failed → Rose (S.faults source.old) (S.faults source.new) }
{
    let mut room = [0u8; 4096];
    let wanted = (PAST_MOST_BYTES - text.len()).min(4096);
    let part = &mut room[..wanted];
    match source.take(part) {
        Err(_) => Err(ReadFault::Failed),
        Ok(n) => match text.extend_from_slice(&part[..n]) {
            Ok(()) => Ok(n),
            Err(_) => Err(ReadFault::OutOfMemory),
        },
    }
}

/// The bytes that are left, and at most one more than a script may have. After a fault a front of them is lost.
pub fn read_all<S: Source>(alloc: Global, source: &mut S) -> Result<Vec<u8>, ReadFault>
    ensures bytes { IfOk result (λ text. WasRead (S.left source.old) text.items) }
    ensures taken { IfOk result (λ text. Consumes (S.left source.old) (S.left source.new) text.items) }
    ensures size { IfOk result (λ text. length text.items ≤ 1048577) }
    ensures ended { IfOk result (λ text. length text.items ≤ 1048576 → IsAtEnd (S.left source.new)) }
    ensures lost { OnErr result (ConsumesFront (S.left source.old) (S.left source.new)) }

    // The count of faults rises only where the source failed.
    ensures calm { OnOk result (S.faults source.new ≡ S.faults source.old) }
    ensures dry { IsErrOf result ReadFault.OutOfMemory → S.faults source.new ≡ S.faults source.old }
    ensures later { S.faults source.old ≤ S.faults source.new }
    ensures cause { IsErrOf result ReadFault.Failed → Rose (S.faults source.old) (S.faults source.new) }
{
    let mut text = Vec::new(alloc);
    while text.len() < PAST_MOST_BYTES {
        if read_some(source, &mut text)? == 0 {
            return Ok(text);
        }
    }
    Ok(text)
}
