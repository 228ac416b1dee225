//! Standard input and standard output as a source and a sink.

ghost use Rattle.std.specs.Prelude.{◌≡◌, ◌<◌, ◌≤◌, [], length, Ok, IfOk, IsErr, OnErr};
ghost use Rattle.shard_base.specs.Faults.{HasCause, Rose};
ghost use Rattle.shard_top.specs.Streams.{next_count};

use shard_top::{Failed, Sink, Source};
use std::io::{self, Read, Write};

/// A stream of the system, and how often it has failed.
#[derive(Drop)]
pub(crate) struct Counted<T: Drop> {
    inner: T,
    faults: u64,
}

impl<T: Drop> Counted<T> {
    /// The stream, which has not failed yet.
    pub(crate) fn new(inner: T) -> Counted<T>
        ensures inner { result.inner ≡ inner }
        ensures faults { result.faults ≡ 0 }
    {
        Counted { inner, faults: 0 }
    }
}

/// One fault more.
fn failed(faults: &mut u64) -> Failed
    ensures counted { faults.new ≡ next_count faults.old }
    ensures rose { Rose faults.old faults.new }
    ensures later { faults.old ≤ faults.new }
{
    *faults = faults.saturating_add(1);
    Failed
}

/// What a read of the system came to: a fault of it is counted, and nothing else is.
fn read_counted(read: io::Result<usize>, faults: &mut u64) -> Result<usize, Failed>
    ensures ok { IfOk read (λ n. result ≡ Ok n) }
    ensures err { OnErr read (IsErr result) }
    ensures calm { IfOk read (λ n. faults.new ≡ faults.old) }
    ensures counted { OnErr read (faults.new ≡ next_count faults.old) }
    ensures cause { HasCause faults.old faults.new result }
{
    match read {
        Ok(count) => Ok(count),
        Err(_) => Err(failed(faults)),
    }
}

/// What a write of the system came to: a fault of it is counted, as is a write that took nothing of a piece, and nothing else is.
fn write_counted(
    written: io::Result<usize>,
    piece: &[u8],
    faults: &mut u64,
) -> Result<usize, Failed>
    ensures some { IfOk written (λ n. 0 < n → result ≡ Ok n) }
    ensures empty { piece.now ≡ [] → IfOk written (λ n. result ≡ Ok n) }
    ensures none { 0 < length piece.now → written ≡ Ok 0 → IsErr result }
    ensures err { OnErr written (IsErr result) }
    ensures calm { IfOk result (λ n. faults.new ≡ faults.old) }
    ensures counted { OnErr result (faults.new ≡ next_count faults.old) }
    ensures cause { HasCause faults.old faults.new result }
{
    match written {
        Ok(count) if count > 0 || piece.is_empty() => Ok(count),
        _ => Err(failed(faults)),
    }
}

impl<R: Read + Drop> Source for Counted<R> {
    ghost left = { λ s. R.remaining s.inner };

    ghost faults = { λ s. s.faults };

    fn take(&mut self, room: &mut [u8]) -> Result<usize, Failed> {
        let read = self.inner.read(room);
        read_counted(read, &mut self.faults)
    }
}

impl<W: Write + Drop> Sink for Counted<W> {
    ghost taken = { λ s. W.contents s.inner };

    ghost faults = { λ s. s.faults };

    fn put(&mut self, piece: &[u8]) -> Result<usize, Failed> {
        let written = self.inner.write(piece);
        write_counted(written, piece, &mut self.faults)
    }
}
