//! A source and a sink in memory, which fail at the calls that they are told to.

ghost use Rattle.std.specs.Prelude.{◌≡◌, ◌≤◌, ◌<◌, ◌-◌, ◌+◌, ◌^◌, ◌↔◌, Contains, ◌⊎◌, min, [], length, IsTrue, IsErr, IfOk, OnErr, Some};
ghost use Rattle.std.specs.Io.{ReadsAtMost, WritesAtMost};
ghost use Rattle.std.specs.Io.KnownBytes.{ReadConsumes, WriteAppends};
ghost use Rattle.shard_base.specs.Faults.{HasCause};
ghost use Rattle.shard_top.specs.Streams.{IsNamed, IsFull, next_count};

use crate::{Failed, Sink, Source};
use shard_base::OutOfMemory;
use std::alloc::Global;
use std::marker::Model;

/// The calls that fail, by their numbers from 1, and how many calls and faults there were.
#[derive(Drop)]
struct Calls {
    fails: Vec<u64>,
    calls: u64,
    faults: u64,
}

impl Calls {
    fn new(fails: Vec<u64>) -> Calls
        ensures { result ≡ record { fails = fails; calls = 0; faults = 0 } }
    {
        Calls {
            fails,
            calls: 0,
            faults: 0,
        }
    }

    fn names(&self, number: u64) -> bool
        ensures { IsTrue result ↔ Contains self.now.fails.items number }
    {
        self.fails.iter().any(|n| *n == number)
    }

    /// Counts a call, and says whether it is one of those that fail.
    fn count(&mut self) -> bool
        ensures named { IsTrue result ↔ IsNamed self.old.fails.items self.old.calls }
        ensures counted { self.new ≡ record self.old { calls = next_count self.old.calls } }
    {
        match self.calls.checked_add(1) {
            Some(number) => {
                self.calls = number;
                self.names(number)
            }
            None => false,
        }
    }

    /// Counts a fault.
    fn fail(&mut self) -> Failed
        ensures { self.new ≡ record self.old { faults = next_count self.old.faults } }
    {
        self.faults = self.faults.saturating_add(1);
        Failed
    }
}

/// A source that gives bytes from memory.
#[derive(Drop)]
pub struct MemorySource {
    bytes: Vec<u8>,
    done: usize,
    piece: u64,
    calls: Calls,
}

impl Model for MemorySource {
    ghost use Rattle.std.specs.Prelude.{◌≤◌, ◌<◌, length, drop};
    ghost use Rattle.shard_top.specs.Streams.{SourceState};

    ghost Value = { SourceState };

    ghost view = { λ s. record { left = drop s.done s.bytes.items; piece = s.piece; fails = s.calls.fails.items; calls = s.calls.calls; faults = s.calls.faults } };

    ghost invariant = { λ s. (s.done ≤ length s.bytes.items) × (0 < s.piece) };
}

impl MemorySource {
    /// These bytes, at most `piece` of them a call. The calls with these numbers fail, counted from 1. It takes no memory.
    pub fn new(bytes: Vec<u8>, piece: u64, fails: Vec<u64>) -> MemorySource
        requires { 0 < piece }
        ensures { result ≡ record { left = bytes.items; piece = piece; fails = fails.items; calls = 0; faults = 0 } }
    {
        MemorySource {
            bytes,
            done: 0,
            piece,
            calls: Calls::new(fails),
        }
    }

    /// The bytes that are left.
    pub fn left(&self) -> &[u8]
        ensures { result.now ≡ self.now.left }
    {
        &self.bytes[self.done..]
    }
}

impl Source for MemorySource {
    ghost use Rattle.std.specs.Prelude.{Some};

    ghost left = { λ s. Some s.left };

    ghost faults = { λ s. s.faults };

    fn take(&mut self, room: &mut [u8]) -> Result<usize, Failed>
        ensures bound { ReadsAtMost result room.new }
        ensures bytes { ReadConsumes (Some self.old.left) (Some self.new.left) result room.new }
        ensures cause { HasCause self.old.faults self.new.faults result }

        // A call fails exactly where it is named, and else gives as much as there is and as one call may give.
        ensures fails { IsErr result ↔ IsNamed self.old.fails self.old.calls }
        ensures count { IfOk result (λ n. n ≡ min (min (length room.old) self.old.piece) (length self.old.left)) }
        ensures counted { self.new.calls ≡ next_count self.old.calls }
        ensures faults { OnErr result (self.new.faults ≡ next_count self.old.faults) }
        ensures same { (self.new.piece ≡ self.old.piece) × (self.new.fails ≡ self.old.fails) }
    {
        if self.calls.count() {
            return Err(self.calls.fail());
        }
        let left = &self.bytes[self.done..];
        let n = (room.len().min(self.piece as usize)).min(left.len());
        room[..n].copy_from_slice(&left[..n]);
        self.done += n;
        Ok(n)
    }
}

/// A sink that keeps its bytes in memory.
#[derive(Drop)]
pub struct MemorySink {
    taken: Vec<u8>,
    room: u64,
    piece: u64,
    calls: Calls,
}

impl Model for MemorySink {
    ghost use Rattle.std.specs.Prelude.{◌≤◌, ◌<◌, length, vec_capacity};
    ghost use Rattle.shard_top.specs.Streams.{SinkState};

    ghost Value = { SinkState };

    ghost view = { λ s. record { taken = s.taken.items; room = s.room; piece = s.piece; fails = s.calls.fails.items; calls = s.calls.calls; faults = s.calls.faults } };

    ghost invariant = { λ s. (length s.taken.items ≤ s.room) × (s.room ≤ vec_capacity s.taken) × (0 < s.piece) };
}

impl MemorySink {
    /// No bytes, with room for `room` bytes in all and at most `piece` a call. The calls with these numbers fail, counted from 1.
    /// It takes all its memory here.
    pub fn new(
        alloc: Global,
        room: u64,
        piece: u64,
        fails: Vec<u64>,
    ) -> Result<MemorySink, OutOfMemory>
        requires { 0 < piece }
        ensures { IfOk result (λ s. s ≡ record { taken = []; room = room; piece = piece; fails = fails.items; calls = 0; faults = 0 }) }
    {
        let taken = Vec::with_capacity(alloc, room as usize)?;
        Ok(MemorySink {
            taken,
            room,
            piece,
            calls: Calls::new(fails),
        })
    }

    /// The bytes that it has taken.
    pub fn taken(&self) -> &[u8]
        ensures { result.now ≡ self.now.taken }
    {
        self.taken.as_slice()
    }
}

impl Sink for MemorySink {
    ghost use Rattle.std.specs.Prelude.{Some};

    ghost taken = { λ s. Some s.taken };

    ghost faults = { λ s. s.faults };

    fn put(&mut self, piece: &[u8]) -> Result<usize, Failed>
        ensures bound { WritesAtMost result piece.now }
        ensures some { IfOk result (λ n. 0 < length piece.now → 0 < n) }
        ensures bytes { WriteAppends (Some self.old.taken) (Some self.new.taken) result piece.now }
        ensures cause { HasCause self.old.faults self.new.faults result }

        // A call fails exactly where it is named, or has a piece and finds no room, and else takes as much as there is room for and as
        // one call may take.
        ensures fails { IsErr result ↔ (IsNamed self.old.fails self.old.calls ⊎ IsFull self.old (length piece.now)) }
        ensures count { IfOk result (λ n. n ≡ min (min (length piece.now) self.old.piece) (self.old.room - length self.old.taken)) }
        ensures counted { self.new.calls ≡ next_count self.old.calls }
        ensures faults { OnErr result (self.new.faults ≡ next_count self.old.faults) }
        ensures same { (self.new.room ≡ self.old.room) × (self.new.piece ≡ self.old.piece) × (self.new.fails ≡ self.old.fails) }
    {
        if self.calls.count() {
            return Err(self.calls.fail());
        }
        let free = self.room as usize - self.taken.len();
        if free == 0 && !piece.is_empty() {
            return Err(self.calls.fail());
        }
        let n = (piece.len().min(self.piece as usize)).min(free);
        match self.taken.extend_from_slice(&piece[..n]) {
            Ok(()) => Ok(n),
            Err(_) => unreachable!(),
        }
    }
}
