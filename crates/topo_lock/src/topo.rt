ghost use Rattle.std.specs.Prelude.{◌≡◌, ◌<◌, ◌≤◌, ◌+◌, ◌-◌, ◌^◌, ◌⊎◌, ◌↔◌, nat_eq, nat_le, reverse, true, false, IsTrue, IsErr, IsSome, IfOk, OnOk, OnErr, length};
ghost use Rattle.std.specs.List.{find};
ghost use Rattle.std.specs.Option.{option_copied};
ghost use Rattle.shard_names.specs.Tablets.{is_among};
ghost use Rattle.topo_lock.specs.Topology.{fresh, is_held, is_held_in, intent_of, last_intent, IntendsLast, IntendsAnother, answer_take, after_take, answer_intend, after_intend, held_or_lost, answer_record, after_record, after_release, after_lapse};
ghost use Rattle.topo_lock.specs.Topology.{answer_drain, after_drain};
ghost use Rattle.topo_lock.specs.State.{if_of_term, spare_after_intend};
ghost use Rattle.topo_lock.specs.Laws.{TermsRise};

use crate::mark::put_mark;
use crate::{Holder, Intent, LockTaken, Record, TopoFault};
use shard_base::OutOfMemory;
use shard_names::Alias;
use std::alloc::Global;
use std::marker::Model;

/// The topology of a shard. Contracts see it as the topology of the definitions, with two numbers of room: for how many more
/// intents (`spare`) and for how many drained marks in all (`marks`) memory is reserved. Only `new` and `reserve` take memory.
#[derive(Debug, Drop)]
pub struct Topo {
    term: u64,
    holder: Option<Holder>,
    intents: Vec<Intent>,
    recorded: Option<Record>,
    drained: Vec<Alias>,
    spare: u64,
    marks: u64,
}

impl Model for Topo {
    ghost use Rattle.topo_lock.specs.State.{TopoState};

    ghost Value = { TopoState };

    ghost use Rattle.topo_lock.specs.Topo.{state_of, IsKept};

    ghost view = { state_of };

    ghost invariant = { IsKept };
}

/// The first intent from the end on that is of no later term.
fn find_within(intents: &[Intent], term: u64) -> Option<&Intent>
    ensures { option_copied result ≡ find (λ i. nat_le i.term term) (reverse intents.now) }
{
    intents.iter().rev().find(|intent| intent.term <= term)
}

/// The intent, if it is of the term.
fn if_of_term(intent: Option<Intent>, term: u64) -> Option<Intent>
    ensures { result ≡ if_of_term term intent }
{
    match intent {
        Some(intent) if intent.term == term => Some(intent),
        _ => None,
    }
}

/// What a term intends. It costs the steps from the last intent back to it.
fn find_intent(intents: &[Intent], term: u64) -> Option<Intent>
    requires rise { TermsRise intents.now }
    ensures { result ≡ find (λ i. nat_eq i.term term) intents.now }
{
    if_of_term(find_within(intents, term).copied(), term)
}

impl Topo {
    /// A topology that nothing has used yet, with room for the drained marks of so many tablets.
    pub fn new(alloc: Global, tablets: u64) -> Result<Topo, OutOfMemory>
        ensures { IfOk result (λ topo. topo ≡ record { topology = fresh; spare = 0; marks = tablets }) }
    {
        Ok(Topo {
            term: 0,
            holder: None,
            intents: Vec::new(alloc),
            recorded: None,
            drained: Vec::with_capacity(alloc, tablets as usize)?,
            spare: 0,
            marks: tablets,
        })
    }

    /// Makes room for one more intent. Want of memory leaves everything as it was.
    pub fn reserve(&mut self) -> Result<(), OutOfMemory>
        ensures ok { OnOk result (self.new ≡ record self.old { spare = self.old.spare + 1 }) }
        ensures err { OnErr result (self.new ≡ self.old) }
    {
        let Some(spare) = self.spare.checked_add(1) else {
            return Err(OutOfMemory);
        };
        self.intents.reserve(spare as usize)?;
        self.spare = spare;
        Ok(())
    }

    /// The term that the topology is at, 0 before the first take.
    pub fn term(&self) -> u64
        ensures { result ≡ self.now.topology.term }
    {
        self.term
    }

    /// Who holds the lock, if anybody does.
    pub fn holder(&self) -> Option<Holder>
        ensures { result ≡ self.now.topology.holder }
    {
        self.holder
    }

    /// Whether the lock is held in this term.
    pub fn is_held_in(&self, term: u64) -> bool
        ensures { result ≡ is_held_in self.now.topology term }
    {
        self.holder.is_some() && self.term == term
    }

    /// Passes where the lock is held in this term, and else says that it is lost and what term the topology is at.
    pub fn check_lock(&self, term: u64) -> Result<(), TopoFault>
        ensures { result ≡ held_or_lost self.now.topology term }
    {
        if !self.is_held_in(term) {
            return Err(TopoFault::LockLost { current: self.term });
        }
        Ok(())
    }

    /// All intents, in the order in which they were made.
    pub fn intents(&self) -> &[Intent]
        ensures { result.now ≡ self.now.topology.intents }
    {
        self.intents.as_slice()
    }

    /// The last intent, if there is any.
    #[tactic(auto, using(crate::proofs::IntentLemmas::last_place))]
    pub fn last_intent(&self) -> Option<Intent>
        ensures { result ≡ last_intent self.now.topology }
    {
        self.intents.last().copied()
    }

    /// The primary on record, if there is any.
    pub fn recorded(&self) -> Option<Record>
        ensures { result ≡ self.now.topology.recorded }
    {
        self.recorded
    }

    /// The tablets that are marked as drained, in alias order.
    pub fn drained(&self) -> &[Alias]
        ensures { result.now ≡ self.now.topology.drained }
    {
        self.drained.as_slice()
    }

    /// For how many more intents there is room.
    pub fn spare(&self) -> u64
        ensures { result ≡ self.now.spare }
    {
        self.spare
    }

    /// For how many drained marks there is room in all.
    pub fn marks(&self) -> u64
        ensures { result ≡ self.now.marks }
    {
        self.marks
    }

    /// Takes the lock in the next term, and answers that term. A lock that is held already is not taken again: the answer is
    /// `LockTaken` with its term and its holder's actor.
    pub fn take(&mut self, holder: Holder) -> Result<u64, LockTaken>
        requires { self.old.topology.term < 2 ^ 64 - 1 }
        ensures answer { result ≡ answer_take self.old.topology }
        ensures taken { IsErr result ↔ IsTrue (is_held self.old.topology) }
        ensures refused { OnErr result (self.new ≡ self.old) }
        ensures leaves { self.new ≡ record self.old { topology = after_take self.old.topology holder } }
    {
        if let Some(held) = &self.holder {
            return Err(LockTaken {
                term: self.term,
                actor: held.actor,
            });
        }
        self.term += 1;
        self.holder = Some(holder);
        Ok(self.term)
    }

    /// What a term intends. It costs the steps from the last intent back to that of the term.
    pub fn intent_of(&self, term: u64) -> Option<Intent>
        ensures { result ≡ intent_of self.now.topology term }
    {
        find_intent(&self.intents, term)
    }

    /// Intends to promote a tablet in this term. A new intent takes one of the reserved places, and the same alias again changes
    /// nothing. `LockLost` says that the lock is not held in this term, `IntentStands` that the term intends another alias.
    pub fn intend(&mut self, term: u64, alias: &Alias) -> Result<(), TopoFault>
        requires room { (1 ≤ self.old.spare) ⊎ IsSome (intent_of self.old.topology term) }
        ensures answer { result ≡ answer_intend self.old.topology term alias.now }

        ensures lost { (result ≡ Err (TopoFault.LockLost self.old.topology.term)) ↔ (is_held_in self.old.topology term ≡ false) }
        ensures stands { (other : Alias) → (result ≡ Err (TopoFault.IntentStands other)) ↔ IntendsAnother self.old.topology term alias.now other }
        ensures refused { OnErr result (self.new ≡ self.old) }

        ensures leaves { self.new ≡ record self.old { topology = after_intend self.old.topology term alias.now; spare = spare_after_intend self.old term } }
    {
        self.check_lock(term)?;
        if let Some(standing) = self.intent_of(term) {
            if standing.alias == *alias {
                return Ok(());
            }
            return Err(TopoFault::IntentStands {
                alias: standing.alias,
            });
        }
        self.intents.push_reserved(Intent {
            term,
            alias: *alias,
        });
        self.spare -= 1;
        Ok(())
    }

    /// Records the tablet of the last intent as the primary, with that intent's term and this moment in milliseconds since the
    /// start of 1970. The alias is to be the last intent's where the lock is held in this term. `LockLost` says that it is not.
    pub fn set_record(&mut self, term: u64, alias: &Alias, moment: u64) -> Result<(), TopoFault>
        requires named { is_held_in self.old.topology term ≡ true → IntendsLast self.old.topology alias.now }
        ensures answer { result ≡ answer_record self.old.topology term }
        ensures lost { (result ≡ Err (TopoFault.LockLost self.old.topology.term)) ↔ (is_held_in self.old.topology term ≡ false) }
        ensures refused { OnErr result (self.new ≡ self.old) }
        ensures leaves { self.new ≡ record self.old { topology = after_record self.old.topology term moment } }
    {
        self.check_lock(term)?;
        if let Some(intent) = self.last_intent() {
            self.recorded = Some(Record {
                alias: *alias,
                term: intent.term,
                moment,
            });
        }
        Ok(())
    }

    /// Marks a tablet as drained, for good. A new mark takes one of the reserved places, and the same tablet again changes nothing.
    /// `LockLost` says that the lock is not held in this term.
    pub fn drain(&mut self, term: u64, alias: &Alias) -> Result<(), TopoFault>
        requires room { (is_among self.old.topology.drained alias.now ≡ true) ⊎ (length self.old.topology.drained < self.old.marks) }
        ensures answer { result ≡ answer_drain self.old.topology term }
        ensures lost { (result ≡ Err (TopoFault.LockLost self.old.topology.term)) ↔ (is_held_in self.old.topology term ≡ false) }
        ensures refused { OnErr result (self.new ≡ self.old) }
        ensures leaves { self.new ≡ record self.old { topology = after_drain self.old.topology term alias.now } }
    {
        self.check_lock(term)?; // A mark is put under the lock alone.
        put_mark(&mut self.drained, alias);
        Ok(())
    }

    /// Frees the lock where it is held in this term, and else changes nothing.
    pub fn release(&mut self, term: u64)
        ensures { self.new ≡ record self.old { topology = after_release self.old.topology term } }
    {
        if self.is_held_in(term) {
            self.holder = None;
        }
    }

    /// Frees the lock, whoever holds it.
    pub fn lapse(&mut self)
        ensures { self.new ≡ record self.old { topology = after_lapse self.old.topology } }
    {
        self.holder = None;
    }
}

#[cfg(test)]
mod tests {
    use super::*;
    use shard_base::Text;
    use std::process::Abort;
    use std::test::Fail;

    fn alias(rt: &impl Abort, text: &[u8]) -> Alias {
        Alias::read(text).ok().expect(rt, "an alias")
    }

    fn holder(rt: &impl Abort, command: u64) -> Holder {
        let actor = Text::from_slice(b"main").expect(rt, "a name");
        Holder { command, actor }
    }

    #[test]
    fn keeps_competing_holders_apart(rt: HostRuntime) -> Result<(), Fail> {
        let z100 = alias(&rt, b"zone1-100");
        let z101 = alias(&rt, b"zone1-101");
        let mut topo = Topo::new(rt.alloc(), 3)?;
        topo.reserve()?;

        assert_eq!(rt; topo.take(holder(&rt, 1)), Ok(1));
        assert_eq!(rt; topo.intend(1, &z100), Ok(()));
        assert_eq!(rt; topo.intend(1, &z100), Ok(()));
        assert_eq!(rt;
            topo.intend(1, &z101),
            Err(TopoFault::IntentStands { alias: z100 })
        );
        topo.lapse();
        assert_eq!(rt;
            topo.intend(1, &z100),
            Err(TopoFault::LockLost { current: 1 })
        );
        topo.release(1);
        assert_eq!(rt; topo.term(), 1);
        assert_eq!(rt; topo.holder(), None);
        assert_eq!(rt;
            topo.intents(),
            [Intent {
                term: 1,
                alias: z100
            }]
            .as_slice()
        );
        assert_eq!(rt; topo.recorded(), None);
        assert_eq!(rt; topo.drained().len(), 0);
        assert_eq!(rt; (topo.spare(), topo.marks()), (0, 3));
        Ok(())
    }

    // The record's term is that of the intent, here below the holder's own.
    #[test]
    fn records_the_last_intent(rt: HostRuntime) -> Result<(), Fail> {
        let z100 = alias(&rt, b"zone1-100");
        let mut topo = Topo::new(rt.alloc(), 1)?;
        topo.reserve()?;
        topo.reserve()?;

        assert_eq!(rt; topo.take(holder(&rt, 1)), Ok(1));
        let actor = holder(&rt, 1).actor;
        assert_eq!(rt;
            topo.take(holder(&rt, 2)),
            Err(LockTaken { term: 1, actor })
        );
        assert_eq!(rt; topo.intend(1, &z100), Ok(()));
        topo.release(1);
        assert_eq!(rt; topo.take(holder(&rt, 2)), Ok(2));
        topo.release(1);
        assert!(rt; topo.is_held_in(2));
        assert_eq!(rt;
            topo.set_record(1, &z100, 5),
            Err(TopoFault::LockLost { current: 2 })
        );
        assert_eq!(rt;
            topo.last_intent(),
            Some(Intent {
                term: 1,
                alias: z100
            })
        );
        assert_eq!(rt; topo.set_record(2, &z100, 5), Ok(()));
        let record = Record {
            alias: z100,
            term: 1,
            moment: 5,
        };
        assert_eq!(rt; topo.recorded(), Some(record));
        Ok(())
    }

    // The marks are in alias order, whatever order they come in, and the same one twice is one.
    #[test]
    fn keeps_marks_in_order(rt: HostRuntime) -> Result<(), Fail> {
        let z100 = alias(&rt, b"zone1-100");
        let z101 = alias(&rt, b"zone1-101");
        let mut topo = Topo::new(rt.alloc(), 2)?;

        assert_eq!(rt; topo.take(holder(&rt, 1)), Ok(1));
        assert_eq!(rt; topo.drain(1, &z101), Ok(()));
        assert_eq!(rt; topo.drain(1, &z100), Ok(()));
        assert_eq!(rt; topo.drain(1, &z101), Ok(()));
        assert_eq!(rt; topo.drained(), [z100, z101].as_slice());
        Ok(())
    }

    #[test]
    fn drains_under_the_lock_alone(rt: HostRuntime) -> Result<(), Fail> {
        let z100 = alias(&rt, b"zone1-100");
        let mut topo = Topo::new(rt.alloc(), 1)?;

        assert_eq!(rt; topo.take(holder(&rt, 1)), Ok(1));
        topo.lapse();
        assert_eq!(rt; topo.take(holder(&rt, 2)), Ok(2));
        topo.lapse();
        assert_eq!(rt;
            topo.drain(1, &z100),
            Err(TopoFault::LockLost { current: 2 })
        );
        assert_eq!(rt; topo.drained().len(), 0);
        assert_eq!(rt; topo.marks(), 1);
        Ok(())
    }
}
