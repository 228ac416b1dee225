//! What calls came to.

ghost use Rattle.std.specs.Prelude.{◌≡◌, IfOk};
ghost use Rattle.std.specs.Option.{option_copied};
ghost use Rattle.shard_calls.specs.Outcomes.{answer_in, outcome_of};
ghost use Rattle.shard_state.specs.InPlace.{answer_at, answer_to, answer_to_call};

use crate::copies::copy_answer;
use post::Post;
use shard_base::OutOfMemory;
use shard_calls::{Answer, Content, Message, Outcome, Settled};

/// The answer that a message carries.
fn answer_in(content: &Content) -> Option<&Answer>
    ensures { option_copied result ≡ answer_in content.now }
{
    match content {
        Content::Asks { .. } => None,
        Content::Answers { answer, .. } => Some(answer),
        Content::Feeds { .. } => None,
        Content::Acks { .. } => None,
    }
}

/// The answer that the message of this number carries.
fn answer_at(post: &Post, number: u64) -> Option<&Answer>
    ensures { option_copied result ≡ answer_at post.now.messages number }
{
    match post.message(number) {
        Some(message) => answer_in(&message.content),
        None => None,
    }
}

/// What a call came to, if it is settled.
pub(crate) fn outcome_of(post: &Post, message: &Message) -> Result<Option<Outcome>, OutOfMemory>
    ensures { IfOk result (λ outcome. outcome ≡ outcome_of post.now.messages message.now) }
{
    match &message.settled {
        Some(Settled::Answered { message }) => match answer_at(post, *message) {
            Some(answer) => {
                let answer = copy_answer(answer)?;
                Ok(Some(Outcome::Answered { answer }))
            }
            None => Ok(None),
        },
        Some(Settled::GaveUp { why }) => Ok(Some(Outcome::GivenUp { why: *why })),
        None => Ok(None),
    }
}

/// What a call was answered, if that settled it.
fn answer_to<'a>(post: &'a Post, message: &Message) -> Option<&'a Answer>
    ensures { option_copied result ≡ answer_to post.now.messages message.now }
{
    match &message.settled {
        Some(Settled::Answered { message }) => answer_at(post, *message),
        Some(Settled::GaveUp { .. }) => None,
        None => None,
    }
}

/// What a message was answered, if it is a call and that settled it.
pub(crate) fn answer_to_call<'a>(post: &'a Post, message: &Message) -> Option<&'a Answer>
    ensures { option_copied result ≡ answer_to_call post.now.messages message.now }
{
    match &message.content {
        Content::Asks { .. } => answer_to(post, message),
        Content::Answers { .. } => None,
        Content::Feeds { .. } => None,
        Content::Acks { .. } => None,
    }
}
