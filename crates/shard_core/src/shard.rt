//! A shard with the history of its steps, and what may be asked of it.

ghost use Rattle.std.specs.Prelude.{◌≡◌, ◌<◌, ◌≤◌, ◌↔◌, ◌&&◌, ◌++◌, ◌∷◌, ◌+◌, ◌-◌, ◌^◌, [], ℕ, List, true, false, length, nat_lt, IsTrue, IfOk, IsOk, OnOk, OnErr, IsErrOf, IfSome, MatchOption, Some, None, vec_len, vec_capacity};
ghost use Rattle.std.specs.Option.{option_copied, option_map};
ghost use Rattle.shard_names.specs.Tablets.{AreTablets, tablet_of};
ghost use Rattle.tablet_manager.specs.Managed.{state_of};
ghost use Rattle.shard_calls.specs.World.{group_of, open_of, open_command};
ghost use Rattle.shard_calls.specs.Table.{Met, meets, answer, row_number, IsRun};
ghost use Rattle.shard_laws.specs.Safe.{IsSafe};
ghost use Rattle.shard_state.specs.State.{Data, data_of, seen, config_in, world_seen, AreOfGroup};
ghost use Rattle.arrivals.specs.Arrivals.{next_due, next_offered};
ghost use Rattle.changes.specs.Makes.{IsFound};
ghost use Rattle.changes.specs.Makes as rows;
ghost use Rattle.shard_core.specs.Causes.{is_told_at_once};
ghost use Rattle.shard_core.specs.Room.{has_room_kept};
ghost use Rattle.shard_core.specs.Kept.{Makes, kept_of, world_of};
ghost use Rattle.shard_core.specs.Leads.{Leads};
ghost use Rattle.shard_core.specs.Notes.{AreInPlace};
ghost use Rattle.shard_core.specs.Spares.{IsSpare};
ghost use Rattle.shard_core.specs.Whole.{IsWhole};
ghost use Rattle.shard_calls.specs.declared.event.Note.{Note as Noted};

use crate::conditions::{meets, meets_at_once, row_number};
use crate::finding::find;
use crate::opening::{opened_actors, opened_managers};
use crate::room::owed_after;
use crate::spares::{again, spare_of};
use changes::{Found, change};
use durability::Durability;
use post::Post;
use shard_base::{Items, OutOfMemory};
use shard_calls::{CommandState, Event, Halt, History, Note, Reply, Seen, Standing, Step, Why};
use shard_names::{Alias, Name, Tablet};
use shard_state::{Fields, manager_of, open_command, open_of, tablet_of};
use std::alloc::Global;
use std::marker::Model;
use tablet_manager::Manager;
use thiserror::Error;
use topo_lock::{Intent, Record, Topo};

/// Why the machine made no step. It then stands as it was.
#[derive(Clone, Copy, Debug, PartialEq, Eq, Error)]
pub enum Refused {
    /// The condition of the event's row does not hold. The rows are Begin 1, Take 2, Read 3, Intend 4, Record 5, Drain 6, Release 7,
    /// Lapse 8, Send 9, Deliver 10, GiveUp 11, Offer 12, Write 13, Tell 14, Local 15, Crash 16, Restart 17, Cut and Mend 18, Lose 19, Tick 20, End 22.
    #[error("the condition of row {row} does not hold")]
    Unmet { row: u8 },
    /// The history has all the steps that it may have.
    #[error("the history is full")]
    Full,
    #[error("out of memory")]
    OutOfMemory,
}

/// The most steps that a history has.
pub const MOST_STEPS: usize = 1000000;

/// The most notes that a history has.
pub const MOST_NOTES: usize = 1000000;

/// One shard: its tablets, and the history of its steps and notes.
#[derive(Drop)]
pub struct Shard {
    fields: Fields,
    history: History,
    /// The steps that open commands still owe: each its End, and before it its Release. For so many there is room.
    owed: u64,
}

// Clauses see the tablets, the steps and the notes: all that stands follows from the tablets and the steps.
impl Model for Shard {
    ghost use Rattle.shard_core.specs.Kept.{Kept};
    ghost use Rattle.shard_state.specs.State.{data_of, config_in};

    ghost Value = { Kept };

    ghost use Rattle.shard_core.specs.Stands.{Stands};

    ghost view = { λ s. record { config = config_in (data_of s.fields); steps = s.history.steps.items; notes = s.history.notes.items } };

    ghost invariant = { Stands };
}

/// Appends a step, for which there is room, and gives its reply once more.
fn push_step(steps: &mut Vec<Step>, event: Event, reply: Reply, spare: Option<Seen>) -> Reply
    requires room { vec_len steps.old < vec_capacity steps.old }
    requires spare { IsSpare reply spare }
    ensures same { result ≡ reply }
    ensures items { steps.new.items ≡ steps.old.items ++ (record { event = event; reply = reply }) ∷ [] }
    ensures len { vec_len steps.new ≡ vec_len steps.old + 1 }
    ensures capacity { vec_capacity steps.new ≡ vec_capacity steps.old }
{
    let said = again(&reply, spare);
    steps.push_reserved(Step { event, reply });
    said
}

/// The step of an event whose row's condition holds, after which there is room for so many more. Want of memory changes nothing.
fn make(
    fields: &mut Fields,
    steps: &mut Vec<Step>,
    owed: u64,
    event: Event,
    found: Found,
) -> Result<Reply, OutOfMemory>
    requires leads { Leads (data_of fields.old) steps.old.items }
    requires few { length steps.old.items < 1000000 }
    requires met { Met (config_in (data_of fields.old)) (world_of (kept_of (data_of fields.old) steps.old.items [])) event }
    requires found { IsFound (seen (data_of fields.old)) event found }
    requires owed { owed < 2 ^ 32 }
    ensures leads { OnOk result (Leads (data_of fields.new) steps.new.items) }
    ensures step { (notes : List Noted) → OnOk result (Makes (kept_of (data_of fields.old) steps.old.items notes) (kept_of (data_of fields.new) steps.new.items notes) event) }
    ensures reply { IfOk result (λ reply. reply ≡ answer (config_in (data_of fields.old)) (world_of (kept_of (data_of fields.old) steps.old.items [])) event) }
    ensures made { IfOk result (λ reply. rows.Makes (data_of fields.old) (data_of fields.new) event reply) }
    ensures room { OnOk result (vec_len steps.new + owed ≤ vec_capacity steps.new) }
    ensures same_steps { OnErr result (steps.new.items ≡ steps.old.items) }
    ensures same_fields { OnErr result (data_of fields.new ≡ data_of fields.old) }
    ensures same_len { OnErr result (vec_len steps.new ≡ vec_len steps.old) }
    ensures no_less { OnErr result (vec_capacity steps.old ≤ vec_capacity steps.new) }
    ensures kept { has_room_kept (seen (data_of fields.old)) event ≡ true → vec_len steps.old + owed + 1 ≤ vec_capacity steps.old → IsOk result }
{
    // The proof's generator wants each enum inside a reply named here.
    let _seen: Option<&Seen> = None;
    let _record: Option<&Record> = None;
    let _intent: Option<&Intent> = None;
    let _why: Option<&Why> = None;
    let _standing: Option<&Standing> = None;
    steps.reserve(owed as usize + 1)?;
    let spare = spare_of(fields, &event)?;
    let mut found = found;
    let reply = change(fields, &event, &mut found)?;
    Ok(push_step(steps, event, reply, spare))
}

/// Whether the condition of the event's row holds in the world to which the history has led.
fn is_met(
    fields: &Fields,
    history: &History,
    event: &Event,
    found: &Found,
) -> Result<bool, OutOfMemory>
    requires leads { Leads (data_of fields.now) history.now.steps.items }
    requires found { IsFound (seen (data_of fields.now)) event.now found.now }
    ensures met { IfOk result (λ met. met ≡ meets (config_in (data_of fields.now)) (world_of (kept_of (data_of fields.now) history.now.steps.items [])) event.now) }
    ensures at_once { is_told_at_once event.now ≡ true → IsOk result }
{
    let _past = history;
    meets(fields, event, found)
}

/// The same, where it takes no memory to tell.
fn is_met_at_once(fields: &Fields, history: &History, event: &Event, found: &Found) -> bool
    requires leads { Leads (data_of fields.now) history.now.steps.items }
    requires found { IsFound (seen (data_of fields.now)) event.now found.now }
    ensures { result ≡ (is_told_at_once event.now && meets (config_in (data_of fields.now)) (world_of (kept_of (data_of fields.now) history.now.steps.items [])) event.now) }
{
    let _past = history;
    meets_at_once(fields, event, found)
}

/// What the row of the event goes by, if its condition holds.
fn look(fields: &Fields, history: &History, event: &Event) -> Result<Option<Found>, OutOfMemory>
    requires leads { Leads (data_of fields.now) history.now.steps.items }
    ensures found { IfOk result (λ found. MatchOption found (meets (config_in (data_of fields.now)) (world_of (kept_of (data_of fields.now) history.now.steps.items [])) event.now ≡ false) (λ found. (meets (config_in (data_of fields.now)) (world_of (kept_of (data_of fields.now) history.now.steps.items [])) event.now ≡ true) × IsFound (seen (data_of fields.now)) event.now found)) }
    ensures at_once { is_told_at_once event.now ≡ true → IsOk result }
{
    let found = find(fields, event);
    match is_met(fields, history, event, &found)? {
        true => Ok(Some(found)),
        false => Ok(None),
    }
}

/// The same again, if there is room for one more step.
fn unless_full(history: &History, found: Found) -> Option<Found>
    ensures { MatchOption result (1000000 ≤ length history.now.steps.items) (λ same. (same ≡ found) × (length history.now.steps.items < 1000000)) }
{
    if history.steps.len() >= MOST_STEPS {
        return None;
    }
    Some(found)
}

fn unmet(event: Event) -> Refused
    ensures { result ≡ Refused.Unmet (row_number event) }
{
    Refused::Unmet {
        row: row_number(&event),
    }
}

fn starved(event: Event) -> Refused
    ensures { result ≡ Refused.OutOfMemory }
{
    let _not_made = event;
    Refused::OutOfMemory
}

fn full(event: Event) -> Refused
    ensures { result ≡ Refused.Full }
{
    let _not_made = event;
    Refused::Full
}

fn full_of_notes(line: Items<u8>) -> Halt
    ensures { result ≡ Halt.Full }
{
    let _not_kept = line;
    Halt::Full
}

fn push_note(notes: &mut Vec<Note>, note: Note) -> Result<(), OutOfMemory>
    ensures ok { OnOk result (notes.new.items ≡ notes.old.items ++ note ∷ []) }
    ensures err { OnErr result (notes.new.items ≡ notes.old.items) }
{
    notes.push(note)?;
    Ok(())
}

impl Shard {
    /// A shard of these tablets, in alias order, to which nothing has happened. The policy says how many of them must acknowledge a primary's
    /// writes, and which. The clock begins at this moment, in milliseconds since the start of 1970, before the year 9999.
    pub fn new(
        alloc: Global,
        tablets: &[Tablet],
        policy: Durability,
        moment: u64,
    ) -> Result<Shard, OutOfMemory>
        requires tablets { AreTablets tablets.now }
        requires few { length tablets.now ≤ 32 }
        requires begins { IsTrue (nat_lt moment 253370764800000) }
        ensures { IfOk result (λ shard. shard ≡ record { config = record { tablets = tablets.now; policy = policy; moment = moment }; steps = []; notes = [] }) }
    {
        let managers = opened_managers(alloc, tablets, policy)?;
        let actors = opened_actors(alloc)?;
        let topo = Topo::new(alloc, tablets.len() as u64)?;
        let post = Post::new(alloc, tablets)?;
        Ok(Shard {
            fields: Fields {
                alloc,
                managers,
                policy,
                moment,
                topo,
                post,
                clock: moment,
                cuts: Vec::new(alloc),
                actors,
                commands: Vec::new(alloc),
            },
            history: History {
                steps: Vec::new(alloc),
                notes: Vec::new(alloc),
            },
            owed: 0,
        })
    }

    /// What has happened. It takes no memory.
    pub fn history(&self) -> &History
        ensures steps { result.now.steps.items ≡ self.now.steps }
        ensures notes { result.now.notes.items ≡ self.now.notes }
    {
        &self.history
    }

    /// The history, without the shard: a run of the machine, with all that holds of every run, and its notes in order of their places. It
    /// takes no memory.
    pub fn into_history(self) -> History
        ensures steps { result.steps.items ≡ self.steps }
        ensures notes { result.notes.items ≡ self.notes }
        ensures in_place { AreInPlace result.steps.items result.notes.items }
        ensures safe { IsSafe self.config result.steps.items }
    {
        let Shard { history, .. } = self;
        history
    }

    /// How many commands have begun. It takes no memory.
    pub fn begun(&self) -> u64
        ensures { result ≡ length (world_of self.now).commands }
    {
        self.fields.commands.len() as u64
    }

    /// What stands: the world to which the steps have led, with all that `arrivals`, `changes` and `planned` ask of fields. It takes no memory.
    pub fn fields(&self) -> &Fields
        ensures config { config_in (data_of result.now) ≡ self.now.config }
        ensures world { world_seen (data_of result.now) self.now.steps ≡ world_of self.now }
        ensures tablets { AreTablets self.now.config.tablets }
        ensures begins { IsTrue (nat_lt self.now.config.moment 253370764800000) }
        ensures group { AreOfGroup (data_of result.now) }
        ensures whole { IsWhole (data_of result.now) }
        ensures run { IsRun self.now.config self.now.steps }
    {
        &self.fields
    }

    /// The command of this number, if it has begun and not ended. It takes no memory.
    pub fn command(&self, number: u64) -> Option<&CommandState>
        ensures { option_copied result ≡ open_command (world_of self.now) number }
    {
        open_command(&self.fields.commands, number)
    }

    /// The command that the actor of this name has open. It takes no memory.
    pub fn open_of(&self, name: &Name) -> Option<u64>
        ensures { result ≡ open_of (world_of self.now).actors name.now }
    {
        open_of(&self.fields.actors, name)
    }

    /// The tablet with this alias. It takes no memory.
    pub fn tablet(&self, alias: &Alias) -> Option<Tablet>
        ensures { result ≡ tablet_of self.now.config.tablets alias.now }
    {
        tablet_of(&self.fields.managers, alias)
    }

    /// The moment that the clock shows, in milliseconds since the start of 1970. It takes no memory.
    pub fn clock(&self) -> u64
        ensures { result ≡ (world_of self.now).clock }
    {
        self.fields.clock
    }

    /// The lock, the intents, the record and the marks. It takes no memory.
    pub fn topo(&self) -> &Topo
        ensures { result.now.topology ≡ (world_of self.now).topo }
    {
        &self.fields.topo
    }

    /// The manager of the tablet with this alias, if it is declared: how the tablet stands, and what it knows of its shard. It takes no memory.
    pub fn manager(&self, alias: &Alias) -> Option<&Manager>
        ensures tablet { option_map (λ manager. manager.me) (option_copied result) ≡ tablet_of self.now.config.tablets alias.now }
        ensures group { IfSome (option_copied result) (λ manager. manager.group ≡ group_of self.now.config) }
        ensures state { IfSome (option_copied result) (λ manager. state_of manager ≡ (world_of self.now).tablets alias.now) }
    {
        manager_of(&self.fields.managers, alias)
    }

    /// Whether the condition of the event's row holds. The only error is want of memory: the cause of an answer takes some to tell, unless the
    /// answer is that memory ran out.
    pub fn meets(&self, event: &Event) -> Result<bool, OutOfMemory>
        ensures met { IfOk result (λ met. met ≡ meets self.now.config (world_of self.now) event.now) }
        ensures at_once { is_told_at_once event.now ≡ true → IsOk result }
    {
        let found = find(&self.fields, event);
        is_met(&self.fields, &self.history, event, &found)
    }

    /// Whether the condition of the event's row holds, and takes no memory to tell: it does for all but the cause of an answer other than that
    /// memory ran out. It takes no memory.
    pub fn meets_at_once(&self, event: &Event) -> bool
        ensures { result ≡ (is_told_at_once event.now && meets self.now.config (world_of self.now) event.now) }
    {
        let found = find(&self.fields, event);
        is_met_at_once(&self.fields, &self.history, event, &found)
    }

    /// The message that comes next of itself: the first that has not come to its receiver, and may. It takes no memory.
    pub fn deliverable(&self) -> Option<u64>
        ensures { result ≡ next_due (world_of self.now) }
    {
        arrivals::deliverable(&self.fields)
    }

    /// The first tablet, in alias order, that may be offered an entry. It takes no memory.
    pub fn offerable(&self) -> Option<Alias>
        ensures { result ≡ next_offered self.now.config (world_of self.now) }
    {
        arrivals::offerable(&self.fields)
    }

    /// One more note behind the steps: the line of a script's action that was refused. A refusal changes nothing.
    pub fn note(&mut self, line: Items<u8>) -> Result<(), Halt>
        ensures noted { OnOk result (self.new ≡ record self.old { notes = self.old.notes ++ record { place = length self.old.steps; line = line } ∷ [] }) }
        ensures full { IsErrOf result Halt.Full ↔ (length self.old.notes ≡ MOST_NOTES) }
        ensures few { OnOk result (length self.old.notes < MOST_NOTES) }
        ensures err { OnErr result (self.new ≡ self.old) }
    {
        if self.history.notes.len() >= MOST_NOTES {
            return Err(full_of_notes(line));
        }
        let place = self.history.steps.len() as u64;
        match push_note(&mut self.history.notes, Note { place, line }) {
            Ok(()) => Ok(()),
            Err(OutOfMemory) => Err(Halt::OutOfMemory),
        }
    }

    /// One step of the machine. A refusal changes nothing. A command's first Release takes no memory, and neither does its End where it ends since
    /// memory ran out.
    pub fn apply(&mut self, event: Event) -> Result<Reply, Refused>
        ensures made { OnOk result (Makes self.old self.new event) }
        ensures reply { IfOk result (λ reply. reply ≡ answer self.old.config (world_of self.old) event) }
        ensures unmet { IsErrOf result (Refused.Unmet (row_number event)) ↔ ((meets self.old.config (world_of self.old) event ≡ false) × (IsErrOf result Refused.OutOfMemory → ⊥)) }
        ensures row { (row : ℕ) → IsErrOf result (Refused.Unmet row) → row ≡ row_number event }
        ensures full { IsErrOf result Refused.Full ↔ (Met self.old.config (world_of self.old) event × (length self.old.steps ≡ MOST_STEPS) × (IsErrOf result Refused.OutOfMemory → ⊥)) }
        ensures at_once { is_told_at_once event ≡ true → IsErrOf result Refused.OutOfMemory → Met self.old.config (world_of self.old) event × (length self.old.steps < MOST_STEPS) }
        ensures err { OnErr result (self.new ≡ self.old) }
        ensures kept { has_room_kept (world_of self.old) event ≡ true → IsErrOf result Refused.OutOfMemory → ⊥ }
    {
        let found = match look(&self.fields, &self.history, &event) {
            Ok(Some(found)) => found,
            Ok(None) => return Err(unmet(event)),
            Err(OutOfMemory) => return Err(starved(event)),
        };
        let found = match unless_full(&self.history, found) {
            Some(found) => found,
            None => return Err(full(event)),
        };
        let owed = owed_after(&self.fields, self.owed, &event);
        match make(
            &mut self.fields,
            &mut self.history.steps,
            owed,
            event,
            found,
        ) {
            Ok(reply) => {
                self.owed = owed;
                Ok(reply)
            }
            Err(OutOfMemory) => Err(Refused::OutOfMemory),
        }
    }
}
