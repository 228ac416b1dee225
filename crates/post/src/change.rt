//! How one message changes: it is sent, arrives, is lost, is settled, or is taken back.

ghost use Rattle.std.specs.Prelude.{◌≡◌, ◌<◌, ◌+◌, ◌∷◌, ◌++◌, ◌⊎◌, [], ◌-◌, length, take, vec_len, vec_capacity, MatchOption};
ghost use Rattle.std.specs.Option.{option_copied};
ghost use Rattle.shard_calls.specs.World.{numbered, changed_at, arrives, vanishes, settles};
ghost use Rattle.post.specs.Waiting.{is_on_its_way};
ghost use Rattle.post.specs.Posted.{sent_at, answers_now};

use shard_calls::{Answer, Content, Message, Settled};

/// The message of a number.
pub(crate) fn message_at(messages: &[Message], number: u64) -> Option<&Message>
    ensures { option_copied result ≡ numbered messages.now number }
{
    let at = number.checked_sub(1)?;
    messages.get(at as usize)
}

/// The index of a number, where there are so many.
pub(crate) fn index_of(count: usize, number: u64) -> Option<usize>
    ensures { MatchOption result ((number ≡ 0) ⊎ (count < number)) (λ k. (k < count) × (number ≡ k + 1)) }
{
    let at = number.checked_sub(1)? as usize;
    if at < count { Some(at) } else { None }
}

pub(crate) fn is_on_its_way(message: &Message) -> bool
    ensures { result ≡ is_on_its_way message.now }
{
    message.arrived.is_none() && !message.lost
}

pub(crate) fn sent_at(now: u64, content: Content) -> Message
    ensures { result ≡ sent_at now content }
{
    Message {
        content,
        sent: now,
        arrived: None,
        lost: false,
        settled: None,
    }
}

pub(crate) fn push_message(messages: &mut Vec<Message>, message: Message)
    requires { vec_len messages.old < vec_capacity messages.old }
    ensures { messages.new.items ≡ messages.old.items ++ message ∷ [] }
{
    messages.push_reserved(message);
}

fn arrive_one(message: &mut Message, now: u64)
    ensures { message.new ≡ arrives now message.old }
{
    message.arrived = Some(message.arrived.unwrap_or(now));
}

fn lose_one(message: &mut Message)
    ensures { message.new ≡ vanishes message.old }
{
    message.lost = true;
}

fn settle_one(message: &mut Message, settled: Settled)
    ensures { message.new ≡ settles settled message.old }
{
    message.settled = Some(message.settled.unwrap_or(settled));
}

pub(crate) fn arrive_at(messages: &mut Vec<Message>, number: u64, now: u64)
    ensures { messages.new.items ≡ changed_at messages.old.items number (arrives now) }
{
    if let Some(at) = index_of(messages.len(), number) {
        arrive_one(&mut messages[at], now);
    }
}

pub(crate) fn lose_at(messages: &mut Vec<Message>, number: u64)
    ensures { messages.new.items ≡ changed_at messages.old.items number vanishes }
{
    if let Some(at) = index_of(messages.len(), number) {
        lose_one(&mut messages[at]);
    }
}

pub(crate) fn settle_at(messages: &mut Vec<Message>, number: u64, settled: Settled)
    ensures { messages.new.items ≡ changed_at messages.old.items number (settles settled) }
{
    if let Some(at) = index_of(messages.len(), number) {
        settle_one(&mut messages[at], settled);
    }
}

fn answer_one(message: &mut Message, answer: Answer)
    ensures { message.new ≡ answers_now answer message.old }
{
    match &mut message.content {
        Content::Asks { .. } => {}
        Content::Answers { answer: said, .. } => *said = answer,
        Content::Feeds { .. } => {}
        Content::Acks { .. } => {}
    }
}

pub(crate) fn answer_at(messages: &mut Vec<Message>, number: u64, answer: Answer)
    ensures { messages.new.items ≡ changed_at messages.old.items number (answers_now answer) }
{
    if let Some(at) = index_of(messages.len(), number) {
        answer_one(&mut messages[at], answer);
    }
}

/// The last message is gone.
pub(crate) fn drop_last(messages: &mut Vec<Message>)
    ensures { messages.new.items ≡ take (length messages.old.items - 1) messages.old.items }
{
    let kept = messages.len().saturating_sub(1);
    messages.truncate(kept);
}
