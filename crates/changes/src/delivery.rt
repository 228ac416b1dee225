//! What a message changes where it arrives: a call, an answer, an entry or an acknowledgement.

ghost use Rattle.std.specs.Prelude.{◌≡◌, ◌<◌, ◌≤◌, ◌-◌, ◌^◌, ℕ, List, true, false, length, OnOk, OnErr, IfOk, Some};
ghost use Rattle.shard_names.specs.Tablets.{alias_eq, is_declared, tablet_of};
ghost use Rattle.shard_names.specs.declared.tablet.Tablet.{Tablet};
ghost use Rattle.gtid_sets.specs.Logs.{greatest_number};
ghost use Rattle.shard_calls.specs.declared.group.Group.{Group};
ghost use Rattle.shard_calls.specs.Stands.{is_down, takes_from};
ghost use Rattle.shard_calls.specs.Tablets.{accepts, after_ack, after_call, answer_to};
ghost use Rattle.shard_calls.specs.Table.{meets};
ghost use Rattle.shard_calls.specs.declared.event.Event.TheVariants as events;
ghost use Rattle.shard_calls.specs.declared.answer.Answer.TheVariants as answers;
ghost use Rattle.shard_calls.specs.declared.post.Content.TheVariants as contents;
ghost use Rattle.tablet_manager.specs.Managed.{state_of, SameTablet};
ghost use Rattle.shard_state.specs.State.{data_of, config_in, seen, state_at, tablets_of, AreOfGroup};
ghost use Rattle.changes.specs.Few.{AreFew};
ghost use Rattle.changes.specs.Sound.{AreSound, Fits, FitsCall};
ghost use Rattle.changes.specs.Makes.{Makes, Carries, CarriesAnswer};
ghost use Rattle.changes.specs.Places.{AreOf, Becomes, Changes, KnowAlias};

use crate::calls::copy_call;
use gtid_sets::Entry;
use shard_base::OutOfMemory;
use shard_calls::{Accepted, Answer, Call, Content, Reply, Settled};
use shard_names::Alias;
use shard_state::{Fields, find_manager};
use tablet_manager::Manager;

/// What the tablet makes of a call.
fn run(manager: &mut Manager, term: u64, call: &Call) -> Result<Answer, OutOfMemory>
    requires up { is_down manager.old.stand ≡ false }
    requires numbered { greatest_number manager.old.me.server manager.old.log.entries ≤ 9223372036854775805 }
    requires fits { FitsCall manager.old.me.alias term call.now }
    ensures answer { IfOk result (λ answer. answer ≡ answer_to manager.old.group manager.old.me term call.now (state_of manager.old)) }
    ensures state { OnOk result (state_of manager.new ≡ after_call manager.old.group manager.old.me term call.now (state_of manager.old)) }
    ensures who { SameTablet manager.old manager.new }
    ensures err { OnErr result (manager.new ≡ manager.old) }
{
    match call {
        Call::Status => manager.status(),
        Call::Stop => manager.stop(term),
        Call::Demote => manager.demote(term),
        Call::Promote { position } => manager.promote(term, position),
        Call::SetSource {
            source,
            stand,
            position,
        } => manager.set_source(term, source, *stand, position),
        Call::Feed => manager.feed(term),
        Call::WaitFor { position, until } => {
            let _until = *until;
            manager.wait_for(term, position)
        }
        Call::WaitTold { until } => {
            let _until = *until;
            manager.wait_told(term)
        }
    }
}

/// What the tablet of an alias makes of a call.
fn run_at(
    managers: &mut Vec<Manager>,
    alias: &Alias,
    term: u64,
    call: &Call,
) -> Result<Answer, OutOfMemory>
    requires declared { is_declared (tablets_of managers.old.items) alias.now ≡ true }
    requires up { is_down (state_at managers.old.items alias.now).stand ≡ false }
    requires numbered { (server : List ℕ) → greatest_number server (state_at managers.old.items alias.now).log ≤ 9223372036854775805 }
    requires fits { FitsCall alias.now term call.now }
    ensures state { OnOk result ((g : Group) → AreOf g managers.old.items → Becomes managers.old.items managers.new.items alias.now (λ me s. after_call g me term call.now s)) }
    ensures answer { IfOk result (λ answer. (g : Group) (me : Tablet) → AreOf g managers.old.items → tablet_of (tablets_of managers.old.items) alias.now ≡ Some me → answer ≡ answer_to g me term call.now (state_at managers.old.items alias.now)) }
    ensures err { OnErr result (managers.new.items ≡ managers.old.items) }
{
    match find_manager(managers, alias) {
        Some(at) => run(&mut managers[at], term, call),
        None => unreachable!(),
    }
}

/// A message back to the command, whose answer is still to come.
fn blank(command: u64, asked: u64, from: &Alias) -> Content
    ensures { result ≡ contents.Answers command asked from.now (answers.Joined) }
{
    Content::Answers {
        command,
        asked,
        from: *from,
        answer: Answer::Joined,
    }
}

/// The tablet answers the call. The answer and what the call changes come together or not at all.
fn deliver_call(
    fields: &mut Fields,
    message: u64,
    command: u64,
    term: u64,
    to: &Alias,
    call: &Call,
) -> Result<Reply, OutOfMemory>
    requires group { AreOfGroup (data_of fields.old) }
    requires here { Carries fields.old.post.messages message (contents.Asks command term to.now call.now) }
    requires declared { is_declared (tablets_of fields.old.managers.items) to.now ≡ true }
    requires up { is_down (state_at fields.old.managers.items to.now).stand ≡ false }
    requires numbered { (server : List ℕ) → greatest_number server (state_at fields.old.managers.items to.now).log ≤ 9223372036854775805 }
    requires fits { FitsCall to.now term call.now }
    ensures made { IfOk result (λ reply. Makes (data_of fields.old) (data_of fields.new) (events.Deliver message) reply) }
    ensures err { OnErr result (data_of fields.new ≡ data_of fields.old) }
{
    let now = fields.clock;
    let number = fields.post.send(blank(command, message, to), now)?;
    match run_at(&mut fields.managers, to, term, call) {
        Ok(answer) => {
            fields.post.amend(number, answer);
            fields.post.arrive(message, now);
            Ok(Reply::Message { message: number })
        }
        Err(fault) => {
            fields.post.take_back();
            Err(fault)
        }
    }
}

/// The answer comes to its command. It takes no memory.
fn deliver_answer(fields: &mut Fields, message: u64, asked: u64) -> Reply
    requires here { CarriesAnswer fields.old.post.messages message asked }
    ensures { Makes (data_of fields.old) (data_of fields.new) (events.Deliver message) result }
{
    let now = fields.clock;
    fields.post.arrive(message, now);
    fields.post.settle(asked, Settled::Answered { message });
    Reply::Ok
}

/// Whether the tablet takes the entry behind `after` from this source in this term.
fn takes_at(managers: &[Manager], alias: &Alias, from: &Alias, term: u64, after: u64) -> bool
    requires declared { is_declared (tablets_of managers.now) alias.now ≡ true }
    ensures { result ≡ takes_from (state_at managers.now alias.now).stand from.now term after }
{
    match find_manager(managers, alias) {
        Some(at) => managers[at].stand().takes_from(from, term, after),
        None => unreachable!(),
    }
}

/// The tablet takes the entry, or leaves it.
fn accept_at(
    managers: &mut Vec<Manager>,
    alias: &Alias,
    from: &Alias,
    term: u64,
    after: u64,
    index: u64,
    entry: &Entry,
) -> Result<Accepted, OutOfMemory>
    requires declared { is_declared (tablets_of managers.old.items) alias.now ≡ true }
    requires small { index < 2 ^ 64 - 1 }
    ensures state { OnOk result (Changes managers.old.items managers.new.items alias.now (accepts from.now term after index entry.now (state_at managers.old.items alias.now)).state) }
    ensures err { OnErr result (managers.new.items ≡ managers.old.items) }
{
    match find_manager(managers, alias) {
        Some(at) => managers[at].accept(from, term, after, index, entry),
        None => unreachable!(),
    }
}

/// The replica takes the entry and acknowledges it, or leaves it.
fn deliver_entry(
    fields: &mut Fields,
    message: u64,
    from: &Alias,
    to: &Alias,
    term: u64,
    after: u64,
    index: u64,
    entry: &Entry,
) -> Result<Reply, OutOfMemory>
    requires here { Carries fields.old.post.messages message (contents.Feeds from.now to.now term after index entry.now) }
    requires declared { is_declared (tablets_of fields.old.managers.items) to.now ≡ true }
    requires small { index < 2 ^ 64 - 1 }
    ensures made { IfOk result (λ reply. Makes (data_of fields.old) (data_of fields.new) (events.Deliver message) reply) }
    ensures err { OnErr result (data_of fields.new ≡ data_of fields.old) }
{
    let now = fields.clock;
    if !takes_at(&fields.managers, to, from, term, after) {
        fields.post.arrive(message, now);
        return Ok(Reply::Ok);
    }
    let acks = Content::Acks {
        from: *to,
        to: *from,
        term,
        index,
    };
    let number = fields.post.send(acks, now)?;
    match accept_at(&mut fields.managers, to, from, term, after, index, entry) {
        Ok(_) => {
            fields.post.arrive(message, now);
            Ok(Reply::Message { message: number })
        }
        Err(fault) => {
            fields.post.take_back();
            Err(fault)
        }
    }
}

/// The tablet notes what the other has.
fn ack_at(managers: &mut Vec<Manager>, alias: &Alias, from: &Alias, term: u64, index: u64)
    requires declared { is_declared (tablets_of managers.old.items) alias.now ≡ true }
    requires known { KnowAlias from.now managers.old.items }
    ensures { Changes managers.old.items managers.new.items alias.now (after_ack from.now term index (state_at managers.old.items alias.now)) }
{
    match find_manager(managers, alias) {
        Some(at) => managers[at].ack(from, term, index),
        None => unreachable!(),
    }
}

/// The primary notes what a replica has. It takes no memory.
fn deliver_ack(
    fields: &mut Fields,
    message: u64,
    from: &Alias,
    to: &Alias,
    term: u64,
    index: u64,
) -> Reply
    requires here { Carries fields.old.post.messages message (contents.Acks from.now to.now term index) }
    requires declared { is_declared (tablets_of fields.old.managers.items) to.now ≡ true }
    requires known { KnowAlias from.now fields.old.managers.items }
    ensures { Makes (data_of fields.old) (data_of fields.new) (events.Deliver message) result }
{
    let now = fields.clock;
    ack_at(&mut fields.managers, to, from, term, index);
    fields.post.arrive(message, now);
    Reply::Ok
}

/// The message comes to its receiver, which does with it what it carries. Want of memory changes nothing.
pub(crate) fn deliver(fields: &mut Fields, message: u64) -> Result<Reply, OutOfMemory>
    requires met { meets (config_in (data_of fields.old)) (seen (data_of fields.old)) (events.Deliver message) ≡ true }
    requires few { AreFew (2 ^ 20) (seen (data_of fields.old)) }
    requires sound { AreSound (config_in (data_of fields.old)) (seen (data_of fields.old)) }
    requires fits { Fits (data_of fields.old) }
    ensures made { IfOk result (λ reply. Makes (data_of fields.old) (data_of fields.new) (events.Deliver message) reply) }
    ensures err { OnErr result (data_of fields.new ≡ data_of fields.old) }
{
    let Some(there) = fields.post.message(message) else {
        unreachable!()
    };
    match &there.content {
        Content::Asks {
            command,
            term,
            to,
            call,
        } => {
            let (command, term, to) = (*command, *term, *to);
            let call = copy_call(call)?;
            deliver_call(fields, message, command, term, &to, &call)
        }
        Content::Answers { asked, .. } => {
            let asked = *asked;
            Ok(deliver_answer(fields, message, asked))
        }
        Content::Feeds {
            from,
            to,
            term,
            after,
            index,
            entry,
        } => {
            let (from, to, entry, term, after, index) = (*from, *to, *entry, *term, *after, *index);
            deliver_entry(fields, message, &from, &to, term, after, index, &entry)
        }
        Content::Acks {
            from,
            to,
            term,
            index,
        } => {
            let (from, to, term, index) = (*from, *to, *term, *index);
            Ok(deliver_ack(fields, message, &from, &to, term, index))
        }
    }
}
