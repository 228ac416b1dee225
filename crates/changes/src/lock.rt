//! The shard lock and what the topology server is asked: take, read, intend, record, drain, release, lapse.

ghost use Rattle.std.specs.Prelude.{◌≡◌, ◌<◌, ◌-◌, ◌^◌, true, Err, OnOk, OnErr, IfOk};
ghost use Rattle.topo_lock.specs.Topology.{is_held_in, answer_take, answer_intend, after_release};
ghost use Rattle.shard_calls.specs.World.{changed_at, with_act};
ghost use Rattle.shard_calls.specs.Locks.{by_term, drained_act, intended_act, recorded_act, seen_of, topo_reply};
ghost use Rattle.shard_calls.specs.Table.{meets};
ghost use Rattle.shard_calls.specs.declared.state.Act.TheVariants as acts;
ghost use Rattle.shard_calls.specs.declared.event.Event.TheVariants as events;
ghost use Rattle.shard_calls.specs.declared.event.Reply.TheVariants as replies;
ghost use Rattle.shard_state.specs.State.{data_of, config_in, seen};
ghost use Rattle.changes.specs.Makes.{Makes};
ghost use Rattle.changes.specs.Sound.{HasRoomForMark};

use crate::acts::{act, act_if, note_taken, set_released};
use shard_base::{Items, OutOfMemory};
use shard_calls::{Act, Reply, Seen};
use shard_names::Alias;
use shard_state::{Fields, open_command, term_of};
use std::alloc::Global;
use topo_lock::{Holder, LockTaken, Topo, TopoFault};

/// What one who asks for the lock is answered.
fn answer_take(topo: &Topo) -> Result<u64, LockTaken>
    requires { topo.now.topology.term < 2 ^ 64 - 1 }
    ensures { result ≡ answer_take topo.now.topology }
{
    match topo.holder() {
        Some(held) => Err(LockTaken {
            term: topo.term(),
            actor: held.actor,
        }),
        None => Ok(topo.term() + 1),
    }
}

/// Takes the lock, unless it is held.
pub(crate) fn take(fields: &mut Fields, command: u64) -> Result<Reply, OutOfMemory>
    requires met { meets (config_in (data_of fields.old)) (seen (data_of fields.old)) (events.Take command) ≡ true }
    requires term { fields.old.topo.topology.term < 2 ^ 64 - 1 }
    ensures made { IfOk result (λ reply. Makes (data_of fields.old) (data_of fields.new) (events.Take command) reply) }
    ensures err { OnErr result (data_of fields.new ≡ data_of fields.old) }
{
    let actor = match open_command(&fields.commands, command) {
        Some(state) => state.actor,
        None => unreachable!(),
    };
    let taken = answer_take(&fields.topo);
    note_taken(&mut fields.commands, command, &taken)?;
    let _taken = fields.topo.take(Holder { command, actor });
    match taken {
        Ok(term) => Ok(Reply::Term { term }),
        Err(held) => Ok(Reply::Taken {
            term: held.term,
            actor: held.actor,
        }),
    }
}

/// What one who holds the lock reads.
pub fn seen_in(alloc: Global, topo: &Topo) -> Result<Seen, OutOfMemory>
    ensures { IfOk result (λ seen. seen ≡ seen_of topo.now.topology) }
{
    let drained = Vec::from_slice(alloc, topo.drained())?;
    Ok(Seen {
        recorded: topo.recorded(),
        intent: topo.last_intent(),
        drained: Items::from_vec(drained),
    })
}

/// Reads the topology, if the command holds the lock.
pub(crate) fn read(fields: &mut Fields, command: u64) -> Result<Reply, OutOfMemory>
    requires met { meets (config_in (data_of fields.old)) (seen (data_of fields.old)) (events.Read command) ≡ true }
    ensures made { IfOk result (λ reply. Makes (data_of fields.old) (data_of fields.new) (events.Read command) reply) }
    ensures err { OnErr result (data_of fields.new ≡ data_of fields.old) }
{
    let term = match term_of(&fields.commands, command) {
        Some(term) => term,
        None => unreachable!(),
    };
    if !fields.topo.is_held_in(term) {
        let current = fields.topo.term();
        let reply = Err(current);
        act(&mut fields.commands, command, Act::Read { reply })?;
        return Ok(Reply::Lost { term: current });
    }
    let kept = seen_in(fields.alloc, &fields.topo)?;
    let told = seen_in(fields.alloc, &fields.topo)?;
    act(&mut fields.commands, command, Act::Read { reply: Ok(kept) })?;
    Ok(Reply::Read(told))
}

/// What one who intends the tablet in this term is answered.
fn answer_intend(topo: &Topo, term: u64, alias: &Alias) -> Result<(), TopoFault>
    ensures { result ≡ answer_intend topo.now.topology term alias.now }
{
    topo.check_lock(term)?;
    match topo.intent_of(term) {
        Some(intent) if intent.alias != *alias => Err(TopoFault::IntentStands {
            alias: intent.alias,
        }),
        _ => Ok(()),
    }
}

fn topo_reply(answer: &Result<(), TopoFault>) -> Reply
    ensures { result ≡ topo_reply answer.now }
{
    match answer {
        Ok(()) => Reply::Ok,
        Err(TopoFault::LockLost { current }) => Reply::Lost { term: *current },
        Err(TopoFault::IntentStands { alias }) => Reply::Stands { alias: *alias },
    }
}

/// What the command keeps of the answer to its Intend.
fn intended_act(alias: &Alias, answer: &Result<(), TopoFault>) -> Option<Act>
    ensures { result ≡ intended_act alias.now answer.now }
{
    match answer {
        Ok(()) => Some(Act::Intended {
            alias: *alias,
            reply: Ok(()),
        }),
        Err(TopoFault::LockLost { current }) => Some(Act::Intended {
            alias: *alias,
            reply: Err(*current),
        }),
        Err(TopoFault::IntentStands { .. }) => None,
    }
}

/// What the command keeps of the answer to its Record.
fn recorded_act(alias: &Alias, answer: &Result<(), TopoFault>) -> Option<Act>
    ensures { result ≡ recorded_act alias.now answer.now }
{
    match answer {
        Ok(()) => Some(Act::Recorded {
            alias: *alias,
            reply: Ok(()),
        }),
        Err(TopoFault::LockLost { current }) => Some(Act::Recorded {
            alias: *alias,
            reply: Err(*current),
        }),
        Err(TopoFault::IntentStands { .. }) => None,
    }
}

/// What the command keeps of the answer to its Drain.
fn drained_act(alias: &Alias, answer: &Result<(), TopoFault>) -> Option<Act>
    ensures { result ≡ drained_act alias.now answer.now }
{
    match answer {
        Ok(()) => Some(Act::Drained {
            alias: *alias,
            reply: Ok(()),
        }),
        Err(TopoFault::LockLost { current }) => Some(Act::Drained {
            alias: *alias,
            reply: Err(*current),
        }),
        Err(TopoFault::IntentStands { .. }) => None,
    }
}

/// Intends the tablet in the command's term.
pub(crate) fn intend(fields: &mut Fields, command: u64, alias: &Alias) -> Result<Reply, OutOfMemory>
    requires met { meets (config_in (data_of fields.old)) (seen (data_of fields.old)) (events.Intend command alias.now) ≡ true }
    ensures made { IfOk result (λ reply. Makes (data_of fields.old) (data_of fields.new) (events.Intend command alias.now) reply) }
    ensures err { OnErr result (data_of fields.new ≡ data_of fields.old) }
{
    let term = match term_of(&fields.commands, command) {
        Some(term) => term,
        None => unreachable!(),
    };
    let answer = answer_intend(&fields.topo, term, alias);
    fields.topo.reserve()?;
    act_if(&mut fields.commands, command, intended_act(alias, &answer))?;
    let _answered = fields.topo.intend(term, alias);
    Ok(topo_reply(&answer))
}

/// Records the tablet as the primary.
pub(crate) fn set_record(
    fields: &mut Fields,
    command: u64,
    alias: &Alias,
) -> Result<Reply, OutOfMemory>
    requires met { meets (config_in (data_of fields.old)) (seen (data_of fields.old)) (events.Record command alias.now) ≡ true }
    ensures made { IfOk result (λ reply. Makes (data_of fields.old) (data_of fields.new) (events.Record command alias.now) reply) }
    ensures err { OnErr result (data_of fields.new ≡ data_of fields.old) }
{
    let term = match term_of(&fields.commands, command) {
        Some(term) => term,
        None => unreachable!(),
    };
    let now = fields.clock;
    let answer = fields.topo.check_lock(term);
    act_if(&mut fields.commands, command, recorded_act(alias, &answer))?;
    let _answered = fields.topo.set_record(term, alias, now);
    Ok(topo_reply(&answer))
}

/// Marks the tablet as drained, for which there is room. What the command keeps of it is all that takes memory.
pub(crate) fn drain(fields: &mut Fields, command: u64, alias: &Alias) -> Result<Reply, OutOfMemory>
    requires met { meets (config_in (data_of fields.old)) (seen (data_of fields.old)) (events.Drain command alias.now) ≡ true }
    requires room { HasRoomForMark (data_of fields.old) alias.now }
    ensures made { IfOk result (λ reply. Makes (data_of fields.old) (data_of fields.new) (events.Drain command alias.now) reply) }
    ensures err { OnErr result (data_of fields.new ≡ data_of fields.old) }
{
    let term = match term_of(&fields.commands, command) {
        Some(term) => term,
        None => unreachable!(),
    };
    let answer = fields.topo.check_lock(term);
    act_if(&mut fields.commands, command, drained_act(alias, &answer))?;
    let _answered = fields.topo.drain(term, alias);
    Ok(topo_reply(&answer))
}

/// Frees the lock, if it is held in this term.
fn free(topo: &mut Topo, term: Option<u64>)
    ensures leaves { topo.new.topology ≡ by_term term topo.old.topology (after_release topo.old.topology) }
    ensures marks { topo.new.marks ≡ topo.old.marks }
{
    if let Some(term) = term {
        topo.release(term);
    }
}

/// Frees the lock, if the command holds it. The command has then made its Release. It takes no memory.
pub(crate) fn release(fields: &mut Fields, command: u64) -> Reply
    requires met { meets (config_in (data_of fields.old)) (seen (data_of fields.old)) (events.Release command) ≡ true }
    ensures { Makes (data_of fields.old) (data_of fields.new) (events.Release command) result }
{
    let term = term_of(&fields.commands, command);
    free(&mut fields.topo, term);
    set_released(&mut fields.commands, command);
    Reply::Ok
}

/// Frees the lock, whoever holds it. It takes no memory.
pub(crate) fn lapse(fields: &mut Fields) -> Reply
    ensures { Makes (data_of fields.old) (data_of fields.new) events.Lapse result }
{
    fields.topo.lapse();
    Reply::Ok
}
