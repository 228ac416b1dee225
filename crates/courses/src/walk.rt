//! Walks along what a command did: the points of which courses are made.

ghost use Rattle.std.specs.Prelude.{◌≡◌, take};
ghost use Rattle.std.specs.List.{list_any};
ghost use Rattle.shard_calls.specs.declared.refusal.Refusal.TheVariants as refusals;
ghost use Rattle.courses.specs.Walks.{is_ask, is_out, walked, Walks, ok_copied, refusing, refuses, or_refusing, trying, keeping_lock, took, read, intended, recorded, drained, wrote, told, asked, called_all, calling, settling, needing, all_settled, next, takes_lock, reads, intends, records, drains, writes, tells, asks, calls_once, needs, asks_all, calls_all};

use crate::{Exit, Want};
use refusals::refusal_after;
use shard_calls::{Answer, Asked, Call, Deed, Kind, Outcome, Refusal, Seen, Standing, Transaction};
use shard_names::Alias;
use std::alloc::Global;

/// What a command did, from where a course has come to.
#[derive(Drop)]
pub struct Walk<'a> {
    alloc: Global,
    rest: &'a [Deed],
}

/// Where there is a refusal it is refused.
pub fn refusing(refusal: Option<Refusal>) -> Result<(), Exit>
    ensures { result ≡ refusing refusal }
{
    match refusal {
        Some(refusal) => Err(Exit::Refused { refusal }),
        None => Ok(()),
    }
}

/// It is refused.
pub fn refuses<T>(refusal: Refusal) -> Result<T, Exit>
    ensures { result ≡ refuses refusal }
{
    Err(Exit::Refused { refusal })
}

/// It is refused, unless it is this value.
pub fn or_refusing<T: Drop>(came: Result<T, Refusal>) -> Result<T, Exit>
    ensures { result ≡ or_refusing came }
{
    match came {
        Ok(value) => Ok(value),
        Err(refusal) => refuses(refusal),
    }
}

/// A refusal is a value like any other.
pub fn tried<T: Drop>(came: Result<T, Exit>) -> Result<Result<T, Refusal>, Exit>
    ensures { result ≡ trying came }
{
    match came {
        Ok(value) => Ok(Ok(value)),
        Err(Exit::Refused { refusal }) => Ok(Err(refusal)),
        Err(Exit::Does { want }) => Err(Exit::Does { want }),
        Err(Exit::Waits) => Err(Exit::Waits),
        Err(Exit::Strays) => Err(Exit::Strays),
        Err(Exit::OutOfMemory) => Err(Exit::OutOfMemory),
    }
}

// ---- what single deeds say

fn took(deed: &Deed) -> Result<u64, Exit>
    ensures { result ≡ took deed.now }
{
    match deed {
        Deed::Took { reply: Ok(term) } => Ok(*term),
        Deed::Took { reply: Err(taken) } => refuses(Refusal::LockTaken {
            term: taken.term,
            actor: taken.actor,
        }),
        _ => Err(Exit::Strays),
    }
}

fn lock_lost<T>(term: u64) -> Result<T, Exit>
    ensures { result ≡ refuses (refusals.LockLost term) }
{
    refuses(Refusal::LockLost { term })
}

fn read(deed: &Deed) -> Result<&Seen, Exit>
    ensures { ok_copied result ≡ read deed.now }
{
    match deed {
        Deed::Read { reply: Ok(seen) } => Ok(seen),
        Deed::Read { reply: Err(term) } => lock_lost(*term),
        _ => Err(Exit::Strays),
    }
}

fn keeping_lock(reply: &Result<(), u64>) -> Result<(), Exit>
    ensures { result ≡ keeping_lock reply.now }
{
    match reply {
        Ok(()) => Ok(()),
        Err(term) => lock_lost(*term),
    }
}

fn intended(alias: &Alias, deed: &Deed) -> Result<(), Exit>
    ensures { result ≡ intended alias.now deed.now }
{
    match deed {
        Deed::Intended {
            alias: other,
            reply,
        } if *other == *alias => keeping_lock(reply),
        _ => Err(Exit::Strays),
    }
}

fn recorded(alias: &Alias, deed: &Deed) -> Result<(), Exit>
    ensures { result ≡ recorded alias.now deed.now }
{
    match deed {
        Deed::Recorded {
            alias: other,
            reply,
        } if *other == *alias => keeping_lock(reply),
        _ => Err(Exit::Strays),
    }
}

fn drained(alias: &Alias, deed: &Deed) -> Result<(), Exit>
    ensures { result ≡ drained alias.now deed.now }
{
    match deed {
        Deed::Drained {
            alias: other,
            reply,
        } if *other == *alias => keeping_lock(reply),
        _ => Err(Exit::Strays),
    }
}

fn wrote(alias: &Alias, deed: &Deed) -> Result<Result<Transaction, Standing>, Exit>
    ensures { result ≡ wrote alias.now deed.now }
{
    match deed {
        Deed::Wrote {
            alias: other,
            reply,
        } if *other == *alias => Ok(*reply),
        _ => Err(Exit::Strays),
    }
}

fn told(deed: &Deed) -> Result<bool, Exit>
    ensures { result ≡ told deed.now }
{
    match deed {
        Deed::Told { committed } => Ok(*committed),
        _ => Err(Exit::Strays),
    }
}

fn is_ask(alias: &Alias, kind: Kind, asked: &Asked) -> bool
    ensures { result ≡ is_ask alias.now kind asked.now }
{
    asked.alias == *alias && asked.kind == kind
}

fn asked<'a>(alias: &Alias, kind: Kind, deed: &'a Deed) -> Result<&'a Asked, Exit>
    ensures { ok_copied result ≡ asked alias.now kind deed.now }
{
    match deed {
        Deed::Asked { asked } if is_ask(alias, kind, asked) => Ok(asked),
        _ => Err(Exit::Strays),
    }
}

fn calling(call: Call, uncalled: Option<Alias>) -> Result<(), Exit>
    ensures { result ≡ calling call uncalled }
{
    match uncalled {
        Some(alias) => Err(Exit::Does {
            want: Want::Ask { alias, call },
        }),
        None => Ok(()),
    }
}

fn settling(asked: &Asked) -> Result<&Outcome, Exit>
    ensures { ok_copied result ≡ settling asked.now.outcome }
{
    match &asked.outcome {
        Some(outcome) => Ok(outcome),
        None => Err(Exit::Waits),
    }
}

fn needing<'a>(refusal: Option<Refusal>, outcome: &'a Outcome) -> Result<&'a Answer, Exit>
    ensures { ok_copied result ≡ needing refusal outcome.now }
{
    if let Some(refusal) = refusal {
        return refuses(refusal);
    }
    match outcome {
        Outcome::Answered { answer } => Ok(answer),
        Outcome::GivenUp { .. } => Err(Exit::Strays),
    }
}

fn is_out(deed: &Deed) -> bool
    ensures { result ≡ is_out deed.now }
{
    match deed {
        Deed::Asked { asked } => asked.outcome.is_none(),
        _ => false,
    }
}

fn are_out(deeds: &[Deed]) -> bool
    ensures { result ≡ list_any is_out deeds.now }
{
    deeds.iter().any(|deed| is_out(deed))
}

fn all_settled(deeds: &[Deed]) -> Result<&[Deed], Exit>
    ensures { ok_copied result ≡ all_settled deeds.now }
{
    if are_out(deeds) {
        return Err(Exit::Waits);
    }
    Ok(deeds)
}

fn first_of(deeds: &[Deed], n: usize) -> &[Deed]
    ensures { result.now ≡ take n deeds.now }
{
    if n < deeds.len() {
        return &deeds[..n];
    }
    deeds
}

impl<'a> Walk<'a> {
    /// From the beginning.
    pub fn new(alloc: Global, deeds: &'a [Deed]) -> Walk<'a>
        ensures { result.rest.now ≡ deeds.now }
    {
        Walk { alloc, rest: deeds }
    }

    /// Where courses take memory.
    pub fn alloc(&self) -> Global {
        self.alloc
    }

    /// The next deed; where there is none this is to be done.
    fn next(&mut self, want: Want) -> Result<&'a Deed, Exit>
        ensures { walked (ok_copied result) self.new.rest.now ≡ next want self.old.rest.now }
    {
        let Some((deed, rest)) = self.rest.split_first() else {
            return Err(Exit::Does { want });
        };
        self.rest = rest;
        Ok(deed)
    }

    /// It takes the lock.
    pub fn take_lock(&mut self) -> Result<u64, Exit>
        ensures { walked result self.new.rest.now ≡ takes_lock self.old.rest.now }
    {
        let deed = self.next(Want::Take)?;
        took(deed)
    }

    /// It reads the topology.
    pub fn read(&mut self) -> Result<&'a Seen, Exit>
        ensures { walked (ok_copied result) self.new.rest.now ≡ reads self.old.rest.now }
    {
        let deed = self.next(Want::Read)?;
        read(deed)
    }

    /// It says whom it is to promote.
    pub fn intend(&mut self, alias: &Alias) -> Result<(), Exit>
        ensures { walked result self.new.rest.now ≡ intends alias.now self.old.rest.now }
    {
        let deed = self.next(Want::Intend { alias: *alias })?;
        intended(alias, deed)
    }

    /// It records the tablet.
    pub fn record(&mut self, alias: &Alias) -> Result<(), Exit>
        ensures { walked result self.new.rest.now ≡ records alias.now self.old.rest.now }
    {
        let deed = self.next(Want::Record { alias: *alias })?;
        recorded(alias, deed)
    }

    /// It marks the tablet as drained.
    pub fn drain(&mut self, alias: &Alias) -> Result<(), Exit>
        ensures { walked result self.new.rest.now ≡ drains alias.now self.old.rest.now }
    {
        let deed = self.next(Want::Drain { alias: *alias })?;
        drained(alias, deed)
    }

    /// It writes at the tablet.
    pub fn write(&mut self, alias: &Alias) -> Result<Result<Transaction, Standing>, Exit>
        ensures { walked result self.new.rest.now ≡ writes alias.now self.old.rest.now }
    {
        let deed = self.next(Want::Write { alias: *alias })?;
        wrote(alias, deed)
    }

    /// It looks whether what it wrote counts as committed.
    pub fn tell(&mut self) -> Result<bool, Exit>
        ensures { walked result self.new.rest.now ≡ tells self.old.rest.now }
    {
        let deed = self.next(Want::Tell)?;
        told(deed)
    }

    /// It calls the tablet.
    pub fn ask(&mut self, alias: &Alias, call: Call) -> Result<&'a Asked, Exit>
        ensures { walked (ok_copied result) self.new.rest.now ≡ asks alias.now call self.old.rest.now }
    {
        let kind = Kind::of(&call);
        let want = Want::Ask {
            alias: *alias,
            call,
        };
        let deed = self.next(want)?;
        asked(alias, kind, deed)
    }

    /// It calls the tablet, whatever the call comes to.
    pub fn call(&mut self, alias: &Alias, call: Call) -> Result<&'a Outcome, Exit>
        ensures { walked (ok_copied result) self.new.rest.now ≡ calls_once alias.now call self.old.rest.now }
    {
        let asked = self.ask(alias, call)?;
        settling(asked)
    }

    /// It calls the tablet, and needs what the call comes to.
    pub fn need(&mut self, alias: &Alias, call: Call) -> Result<&'a Answer, Exit>
        ensures { Walks (ok_copied result) self.new.rest.now (needs alias.now call self.old.rest.now) }
    {
        let asked = self.ask(alias, call)?;
        let outcome = settling(asked)?;
        let refusal = refusal_after(asked, outcome)?;
        needing(refusal, outcome)
    }

    /// The first of these that it has not called.
    fn called_all(&mut self, aliases: &[Alias], kind: Kind) -> Result<Option<Alias>, Exit>
        ensures { walked result self.new.rest.now ≡ called_all aliases.now kind self.old.rest.now }
    {
        let mut left = aliases;
        while let Some((alias, more)) = left.split_first() {
            let Some((deed, rest)) = self.rest.split_first() else {
                return Ok(Some(*alias));
            };
            self.rest = rest;
            asked(alias, kind, deed)?;
            left = more;
        }
        Ok(None)
    }

    fn ask_all(&mut self, aliases: &[Alias], call: Call) -> Result<(), Exit>
        ensures { walked result self.new.rest.now ≡ asks_all aliases.now call self.old.rest.now }
    {
        let uncalled = self.called_all(aliases, Kind::of(&call))?;
        calling(call, uncalled)
    }

    /// It calls each of the tablets, and goes on once all calls are settled.
    pub fn call_all(&mut self, aliases: &[Alias], call: Call) -> Result<&'a [Deed], Exit>
        ensures { walked (ok_copied result) self.new.rest.now ≡ calls_all aliases.now call self.old.rest.now }
    {
        let ahead = self.rest;
        self.ask_all(aliases, call)?;
        all_settled(first_of(ahead, aliases.len()))
    }
}
