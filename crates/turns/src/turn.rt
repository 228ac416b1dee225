//! What a resumable command does on a floor: once for all courses.

ghost use Rattle.std.specs.Prelude.{◌≡◌, [], ⊤, List, false, not, ◌&&◌, IfOk, OnOk, OnErr};
ghost use Rattle.std.specs.List.{list_any};
ghost use Rattle.shard_calls.specs.declared.ending.CommandAnswer.{CommandAnswer};
ghost use Rattle.shard_calls.specs.declared.group.Group.{Group};
ghost use Rattle.shard_calls.specs.declared.span.Deed.{Deed};
ghost use Rattle.courses.specs.declared.demands.Demand.TheVariants.{Does, Awaits, Leaves};
ghost use Rattle.courses.specs.Walks.{Walks, Course};
ghost use Rattle.courses.specs.Course.{demand};
ghost use Rattle.courses.specs.Laws.{IsStable};
ghost use Rattle.courses.specs.Sound.{IsSound};
ghost use Rattle.turns.specs.Turns.{span_of, OnlyOthers, Behind, is_lock, has_released, first_out, Acted, Turned};

use crate::floor::{Floor, Halt};
use crate::looking::{give_up_one, look, out_message};
use courses::{Demand, Exit, Walk, Want, demand_by};
use shard_base::OutOfMemory;
use shard_calls::{CommandAnswer, Deed};
use std::alloc::Global;

/// What a turn did.
#[derive(Clone, Copy, Debug, PartialEq, Eq)]
pub enum Turn {
    /// One event was made.
    Went,
    /// It waits: for calls, of which this is the first in alias order that is not settled, or to be told of its entry.
    Waits { message: Option<u64> },
    /// The command has ended.
    Ended,
}

fn is_lock(deed: &Deed) -> bool
    ensures { result ≡ is_lock deed.now }
{
    matches!(deed, Deed::Took { reply: Ok(_) })
}

fn has_lock(deeds: &[Deed]) -> bool
    ensures { result ≡ list_any is_lock deeds.now }
{
    deeds.iter().any(|deed| is_lock(deed))
}

/// The first call that is out.
fn first_out(deeds: &[Deed]) -> Option<u64>
    ensures { result ≡ first_out deeds.now }
{
    let mut left = deeds;
    while let Some((deed, more)) = left.split_first() {
        if let Some(message) = out_message(deed) {
            return Some(message);
        }
        left = more;
    }
    None
}

/// A course of which the turns are made.
pub trait Plays {
    /// Whose course it is.
    ghost group: { Self → Group };

    ghost course: { Self → Course CommandAnswer };

    /// How far the course comes.
    fn play(&self, walk: &mut Walk<'_>) -> Result<CommandAnswer, Exit>
        ensures { Walks result walk.new.rest.now (course self.now walk.old.rest.now) };

    ghost stable: { (player : Self) → IsStable (course player) };

    ghost sound: { (player : Self) (span : List Deed) → IsSound (group player) span (λ r. ⊤) (course player) (λ x. ⊤) };
}

/// A resumable command: its number, its course, and what it did.
pub struct Player<P> {
    number: u64,
    course: P,
    span: Vec<Deed>,
    released: bool,
    ended: bool,
}

impl<P: Plays> Player<P> {
    /// A command of this number that has begun, and did nothing yet.
    pub fn new(alloc: Global, number: u64, course: P) -> Player<P>
        ensures number { result.number ≡ number }
        ensures course { result.course ≡ course }
        ensures span { result.span.items ≡ [] }
        ensures released { result.released ≡ false }
    {
        Player {
            number,
            course,
            span: Vec::new(alloc),
            released: false,
            ended: false,
        }
    }

    /// Makes the one event that is demanded, and notes it.
    fn make<F: Floor>(&mut self, floor: &mut F, want: &Want) -> Result<Turn, Halt>
        requires behind { Behind self.old.span.items (span_of self.old.number (F.shown floor.old)) }
        requires released { has_released self.old.number (F.shown floor.old) ≡ self.old.released }
        requires group { F.group floor.old ≡ P.group self.old.course }
        requires demanded { demand (P.course self.old.course) self.old.span.items ≡ Does want.now }
        ensures acted { IfOk result (λ turn. Acted (P.course self.old.course) self.old.number
            (F.shown floor.old) (F.shown floor.new) self.old.span.items turn) }
        ensures behind { OnOk result (Behind self.new.span.items (span_of self.new.number (F.shown floor.new))) }
        ensures released { OnOk result (has_released self.new.number (F.shown floor.new) ≡ self.new.released) }
        ensures group { F.group floor.new ≡ P.group self.new.course }
        ensures halted { OnErr result (OnlyOthers self.old.number (F.shown floor.old) (F.shown floor.new)) }
    {
        if self.span.reserve(1).is_err() {
            return Err(Halt::OutOfMemory);
        }
        let Some(deed) = floor.does(self.number, want)? else {
            return Ok(Turn::Waits { message: None });
        };
        self.span.push_reserved(deed);
        Ok(Turn::Went)
    }

    /// What is to be done.
    fn demand(&self, alloc: Global) -> Result<Demand, OutOfMemory>
        ensures { IfOk result (λ d. d ≡ demand (P.course self.now.course) self.now.span.items) }
    {
        let mut walk = Walk::new(alloc, self.span.as_slice());
        demand_by(self.course.play(&mut walk))
    }

    /// Whether it took the lock, and has not made its Release.
    fn owes_release(&self) -> bool
        ensures { result ≡ (not self.now.released && list_any is_lock self.now.span.items) }
    {
        if self.released {
            return false;
        }
        has_lock(self.span.as_slice())
    }

    /// Frees the lock, if it took it, or else ends.
    fn leave<F: Floor>(&mut self, floor: &mut F, answer: &CommandAnswer) -> Result<Turn, Halt>
        requires behind { Behind self.old.span.items (span_of self.old.number (F.shown floor.old)) }
        requires released { has_released self.old.number (F.shown floor.old) ≡ self.old.released }
        requires group { F.group floor.old ≡ P.group self.old.course }
        requires demanded { demand (P.course self.old.course) self.old.span.items ≡ Leaves answer.now }
        ensures acted { IfOk result (λ turn. Acted (P.course self.old.course) self.old.number
            (F.shown floor.old) (F.shown floor.new) self.old.span.items turn) }
        ensures behind { OnOk result (Behind self.new.span.items (span_of self.new.number (F.shown floor.new))) }
        ensures released { OnOk result (has_released self.new.number (F.shown floor.new) ≡ self.new.released) }
        ensures group { F.group floor.new ≡ P.group self.new.course }
        ensures halted { OnErr result (OnlyOthers self.old.number (F.shown floor.old) (F.shown floor.new)) }
    {
        if self.owes_release() {
            floor.release(self.number)?;
            self.released = true;
            return Ok(Turn::Went);
        }
        floor.end(self.number, answer)?;
        self.ended = true;
        Ok(Turn::Went)
    }

    /// Gives up the first call that may be given up, or waits.
    fn wait<F: Floor>(&mut self, floor: &mut F) -> Result<Turn, Halt>
        requires behind { Behind self.old.span.items (span_of self.old.number (F.shown floor.old)) }
        requires released { has_released self.old.number (F.shown floor.old) ≡ self.old.released }
        requires group { F.group floor.old ≡ P.group self.old.course }
        requires awaited { demand (P.course self.old.course) self.old.span.items ≡ Awaits }
        ensures acted { IfOk result (λ turn. Acted (P.course self.old.course) self.old.number
            (F.shown floor.old) (F.shown floor.new) self.old.span.items turn) }
        ensures behind { OnOk result (Behind self.new.span.items (span_of self.new.number (F.shown floor.new))) }
        ensures released { OnOk result (has_released self.new.number (F.shown floor.new) ≡ self.new.released) }
        ensures group { F.group floor.new ≡ P.group self.new.course }
        ensures halted { OnErr result (OnlyOthers self.old.number (F.shown floor.old) (F.shown floor.new)) }
    {
        if give_up_one(floor, self.number, &mut self.span)? {
            return Ok(Turn::Went);
        }
        Ok(Turn::Waits {
            message: first_out(self.span.as_slice()),
        })
    }

    /// Does what is demanded.
    fn act<F: Floor>(&mut self, alloc: Global, floor: &mut F) -> Result<Turn, Halt>
        requires behind { Behind self.old.span.items (span_of self.old.number (F.shown floor.old)) }
        requires released { has_released self.old.number (F.shown floor.old) ≡ self.old.released }
        requires group { F.group floor.old ≡ P.group self.old.course }
        ensures acted { IfOk result (λ turn. Acted (P.course self.old.course) self.old.number
            (F.shown floor.old) (F.shown floor.new) self.old.span.items turn) }
        ensures behind { OnOk result (Behind self.new.span.items (span_of self.new.number (F.shown floor.new))) }
        ensures released { OnOk result (has_released self.new.number (F.shown floor.new) ≡ self.new.released) }
        ensures group { F.group floor.new ≡ P.group self.new.course }
        ensures halted { OnErr result (OnlyOthers self.old.number (F.shown floor.old) (F.shown floor.new)) }
    {
        match self.demand(alloc)? {
            Demand::Does { want } => self.make(floor, &want),
            Demand::Leaves { answer } => self.leave(floor, &answer),
            Demand::Awaits => self.wait(floor),
        }
    }

    /// Looks at every call that is out, and then makes at most one event: the one that is demanded.
    pub fn turn<F: Floor>(&mut self, alloc: Global, floor: &mut F) -> Result<Turn, Halt>
        requires behind { Behind self.old.span.items (span_of self.old.number (F.shown floor.old)) }
        requires released { has_released self.old.number (F.shown floor.old) ≡ self.old.released }
        requires group { F.group floor.old ≡ P.group self.old.course }
        ensures turned { IfOk result (λ turn. Turned (P.course self.old.course) self.old.number (F.shown floor.old) (F.shown floor.new) turn) }
        ensures behind { OnOk result (Behind self.new.span.items (span_of self.new.number (F.shown floor.new))) }
        ensures released { OnOk result (has_released self.new.number (F.shown floor.new) ≡ self.new.released) }
        ensures group { F.group floor.new ≡ P.group self.new.course }
        ensures halted { OnErr result (OnlyOthers self.old.number (F.shown floor.old) (F.shown floor.new)) }
    {
        if self.ended {
            return Ok(Turn::Ended);
        }
        look(floor, self.number, &mut self.span)?;
        self.act(alloc, floor)
    }
}
