//! What is kept beside the messages: queues of their numbers by direction and by receiver, and the answers to each call.

ghost use Rattle.std.specs.Prelude.{◌≡◌, ◌<◌, ◌≤◌, ◌+◌, ◌-◌, ◌*◌, ◌∷◌, ◌++◌, [], replicate, take, length, OnOk, OnErr, IfOk};
ghost use Rattle.shard_calls.specs.World.{numbered, changed, changed_at};
ghost use Rattle.post.specs.Directions.{receiver};
ghost use Rattle.post.specs.Kept.{direction_of, with_number, without_last, taken_out, left_by, forgotten_by, unanswered_by, HoldSame, HasJoined};

use crate::change::{index_of, is_on_its_way, message_at, push_message};
use crate::direction::{asked_by, direction_of, receiver};
use crate::queue::Queue;
use shard_base::{Items, OutOfMemory};
use shard_calls::Message;
use shard_names::Alias;
use std::alloc::Global;

pub(crate) fn queues_of(alloc: Global, count: usize) -> Result<Vec<Queue>, OutOfMemory>
    ensures { IfOk result (λ queues. queues.items ≡ replicate count []) }
{
    let mut queues = Vec::new(alloc);
    for _turn in 0..count {
        queues.push(Queue::new(alloc))?;
    }
    Ok(queues)
}

fn join_queue(queues: &mut Vec<Queue>, at: usize, number: u64) -> Result<(), OutOfMemory>
    requires { at < length queues.old.items }
    ensures ok { OnOk result (queues.new.items ≡ changed queues.old.items at (with_number number)) }
    ensures err { OnErr result (queues.new.items ≡ queues.old.items) }
{
    queues[at].push(number)
}

fn forget_last(queues: &mut Vec<Queue>, at: usize)
    requires { at < length queues.old.items }
    ensures { queues.new.items ≡ changed queues.old.items at without_last }
{
    queues[at].pop();
}

fn leave_queue(queues: &mut Vec<Queue>, at: usize, number: u64)
    requires { at < length queues.old.items }
    ensures { queues.new.items ≡ changed queues.old.items at (taken_out number) }
{
    queues[at].take_out(number);
}

/// There is an inbox for this receiver, which is empty if it is new. Those before it become as many.
fn make_room(inboxes: &mut Vec<Queue>, to: usize) -> Result<(), OutOfMemory>
    ensures same { HoldSame inboxes.old.items inboxes.new.items }
    ensures room { OnOk result (to < length inboxes.new.items) }
{
    let alloc = *inboxes.allocator();
    while inboxes.len() <= to {
        inboxes.push(Queue::new(alloc))?;
    }
    Ok(())
}

/// The number leaves the inbox of this receiver, if there is one.
fn leave_inbox(inboxes: &mut Vec<Queue>, to: usize, number: u64)
    ensures { inboxes.new.items ≡ changed inboxes.old.items to (taken_out number) }
{
    if to < inboxes.len() {
        leave_queue(inboxes, to, number);
    }
}

/// The last number of the inbox of this receiver is gone, if there is one.
fn forget_inbox(inboxes: &mut Vec<Queue>, to: usize)
    ensures { inboxes.new.items ≡ changed inboxes.old.items to without_last }
{
    if to < inboxes.len() {
        forget_last(inboxes, to);
    }
}

fn add_answer(answers: &mut [Items<u64>], call: u64, number: u64) -> Result<(), OutOfMemory>
    ensures ok { OnOk result (answers.new ≡ changed_at answers.old call (with_number number)) }
    ensures err { OnErr result (answers.new ≡ answers.old) }
{
    match index_of(answers.len(), call) {
        Some(at) => answers[at].push(number),
        None => Ok(()),
    }
}

/// Puts the number at the end of the queue, and beside the call that it answers. Want of memory changes neither.
fn enter(
    queues: &mut Vec<Queue>,
    at: usize,
    answers: &mut [Items<u64>],
    call: u64,
    number: u64,
) -> Result<(), OutOfMemory>
    requires { at < length queues.old.items }
    ensures ok_queues { OnOk result (queues.new.items ≡ changed queues.old.items at (with_number number)) }
    ensures ok_answers { OnOk result (answers.new ≡ changed_at answers.old call (with_number number)) }
    ensures err_queues { OnErr result (queues.new.items ≡ queues.old.items) }
    ensures err_answers { OnErr result (answers.new ≡ answers.old) }
{
    join_queue(queues, at, number)?;
    match add_answer(answers, call, number) {
        Ok(()) => Ok(()),
        Err(fault) => {
            forget_last(queues, at);
            Err(fault)
        }
    }
}

/// Puts the number at the end of the inbox of its receiver, too. Want of memory changes nothing.
fn enter_all(
    inboxes: &mut Vec<Queue>,
    to: usize,
    queues: &mut Vec<Queue>,
    at: usize,
    answers: &mut [Items<u64>],
    call: u64,
    number: u64,
) -> Result<(), OutOfMemory>
    requires inbox { to < length inboxes.old.items }
    requires queue { at < length queues.old.items }
    ensures ok_inboxes { OnOk result (inboxes.new.items ≡ changed inboxes.old.items to (with_number number)) }
    ensures ok_queues { OnOk result (queues.new.items ≡ changed queues.old.items at (with_number number)) }
    ensures ok_answers { OnOk result (answers.new ≡ changed_at answers.old call (with_number number)) }
    ensures err_inboxes { OnErr result (inboxes.new.items ≡ inboxes.old.items) }
    ensures err_queues { OnErr result (queues.new.items ≡ queues.old.items) }
    ensures err_answers { OnErr result (answers.new ≡ answers.old) }
{
    join_queue(inboxes, to, number)?;
    match enter(queues, at, answers, call, number) {
        Ok(()) => Ok(()),
        Err(fault) => {
            forget_last(inboxes, to);
            Err(fault)
        }
    }
}

/// A new message with what is kept beside it, all or nothing: at most there is an empty inbox more.
pub(crate) fn add(
    messages: &mut Vec<Message>,
    inboxes: &mut Vec<Queue>,
    queues: &mut Vec<Queue>,
    answers: &mut Vec<Items<u64>>,
    to: usize,
    at: usize,
    call: u64,
    message: Message,
) -> Result<u64, OutOfMemory>
    requires { at < length queues.old.items }
    ensures number { IfOk result (λ number. number ≡ length messages.old.items + 1) }
    ensures ok_messages { OnOk result (messages.new.items ≡ messages.old.items ++ message ∷ []) }
    ensures ok_inboxes { OnOk result (HasJoined inboxes.old.items inboxes.new.items to (length messages.old.items + 1)) }
    ensures ok_queues { OnOk result (queues.new.items ≡ changed queues.old.items at (with_number (length messages.old.items + 1))) }
    ensures ok_answers { OnOk result (answers.new.items ≡ changed_at answers.old.items call (with_number (length messages.old.items + 1)) ++ [] ∷ []) }
    ensures err_messages { OnErr result (messages.new.items ≡ messages.old.items) }
    ensures err_inboxes { OnErr result (HoldSame inboxes.old.items inboxes.new.items) }
    ensures err_queues { OnErr result (queues.new.items ≡ queues.old.items) }
    ensures err_answers { OnErr result (answers.new.items ≡ answers.old.items) }
{
    let alloc = *messages.allocator();
    let number = messages.len() as u64 + 1;
    messages.reserve(1)?;
    answers.reserve(1)?;
    make_room(inboxes, to)?;
    enter_all(
        inboxes,
        to,
        queues,
        at,
        answers.as_mut_slice(),
        call,
        number,
    )?;
    answers.push_reserved(Items::new(alloc));
    push_message(messages, message);
    Ok(number)
}

/// The message of a number waits no more.
pub(crate) fn leave(
    aliases: &[Alias],
    messages: &[Message],
    inboxes: &mut Vec<Queue>,
    queues: &mut Vec<Queue>,
    number: u64,
)
    requires few { length aliases.now ≤ 32 }
    requires directions { length queues.old.items ≡ (length aliases.now + 2) * 34 }
    ensures inboxes { inboxes.new.items ≡ left_by receiver inboxes.old.items number (numbered messages.now number) }
    ensures queues { queues.new.items ≡ left_by (direction_of aliases.now) queues.old.items number (numbered messages.now number) }
{
    if let Some(message) = message_at(messages, number) {
        if is_on_its_way(message) {
            leave_queue(queues, direction_of(aliases, &message.content), number);
            leave_inbox(inboxes, receiver(&message.content), number);
        }
    }
}

/// The last message, whose number this is, ends no queue any more.
pub(crate) fn forget(
    aliases: &[Alias],
    messages: &[Message],
    inboxes: &mut Vec<Queue>,
    queues: &mut Vec<Queue>,
    number: u64,
)
    requires few { length aliases.now ≤ 32 }
    requires directions { length queues.old.items ≡ (length aliases.now + 2) * 34 }
    ensures inboxes { inboxes.new.items ≡ forgotten_by receiver inboxes.old.items (numbered messages.now number) }
    ensures queues { queues.new.items ≡ forgotten_by (direction_of aliases.now) queues.old.items (numbered messages.now number) }
{
    if let Some(message) = message_at(messages, number) {
        if is_on_its_way(message) {
            forget_last(queues, direction_of(aliases, &message.content));
            forget_inbox(inboxes, receiver(&message.content));
        }
    }
}

fn pop_number(numbers: &mut Items<u64>)
    ensures { numbers.new ≡ without_last numbers.old }
{
    let kept = numbers.len().saturating_sub(1);
    numbers.truncate(kept);
}

fn pop_answer(answers: &mut [Items<u64>], call: u64)
    ensures { answers.new ≡ changed_at answers.old call without_last }
{
    if let Some(at) = index_of(answers.len(), call) {
        pop_number(&mut answers[at]);
    }
}

/// The message of this number answers nothing any more.
fn forget_answer(messages: &[Message], answers: &mut [Items<u64>], number: u64)
    ensures { answers.new ≡ unanswered_by answers.old (numbered messages.now number) }
{
    if let Some(message) = message_at(messages, number) {
        pop_answer(answers, asked_by(&message.content));
    }
}

/// The last list is gone.
fn drop_list(answers: &mut Vec<Items<u64>>)
    ensures { answers.new.items ≡ take (length answers.old.items - 1) answers.old.items }
{
    let kept = answers.len().saturating_sub(1);
    answers.truncate(kept);
}

/// The last message, whose number this is, answers nothing any more, and has no list.
pub(crate) fn forget_answers(messages: &[Message], answers: &mut Vec<Items<u64>>, number: u64)
    ensures { answers.new.items ≡ take (length answers.old.items - 1) (unanswered_by answers.old.items (numbered messages.now number)) }
{
    forget_answer(messages, answers.as_mut_slice(), number);
    drop_list(answers);
}
