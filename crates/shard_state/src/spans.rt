//! What a command did, with what came of it.

ghost use Rattle.std.specs.Prelude.{◌≡◌, ◌∷◌, ◌++◌, [], IfOk, OnOk};
ghost use Rattle.shard_calls.specs.Spans.{asked_by, deed_of, deed_if_asked, span_in, term_wrote, written_in};
ghost use Rattle.shard_state.specs.InPlace.{asked_at, with_deed};

use crate::copies::{copy_read, copy_set, copy_taken};
use crate::outcomes::outcome_of;
use gtid_sets::Gtid;
use post::Post;
use shard_base::OutOfMemory;
use shard_calls::{
    Act, Asked, CommandState, Content, Deed, Kind, Message, Standing, Transaction, Wrote,
};
use std::alloc::Global;

/// A call that was sent, as the post has it.
fn asked_by(post: &Post, number: u64, message: &Message) -> Result<Option<Asked>, OutOfMemory>
    ensures { IfOk result (λ asked. asked ≡ asked_by post.now.messages number message.now message.now.content) }
{
    match &message.content {
        Content::Asks { term, to, call, .. } => {
            let outcome = outcome_of(post, message)?;
            Ok(Some(Asked {
                alias: *to,
                kind: Kind::of(call),
                message: number,
                term: *term,
                sent: message.sent,
                arrived: message.arrived.unwrap_or(0),
                outcome,
            }))
        }
        Content::Answers { .. } => Ok(None),
        Content::Feeds { .. } => Ok(None),
        Content::Acks { .. } => Ok(None),
    }
}

fn asked_at(post: &Post, number: u64) -> Result<Option<Asked>, OutOfMemory>
    ensures { IfOk result (λ asked. asked ≡ asked_at post.now.messages number) }
{
    match post.message(number) {
        Some(message) => asked_by(post, number, message),
        None => Ok(None),
    }
}

fn sent(post: &Post, number: u64) -> Result<Option<Deed>, OutOfMemory>
    ensures { IfOk result (λ deed. deed ≡ deed_if_asked (asked_at post.now.messages number)) }
{
    match asked_at(post, number)? {
        Some(asked) => Ok(Some(Deed::Asked { asked })),
        None => Ok(None),
    }
}

/// What a tablet wrote, in the term in which it was the primary.
fn written_in(term: u64, reply: &Result<Gtid, Standing>) -> Result<Transaction, Standing>
    ensures { result ≡ written_in term reply.now }
{
    match reply {
        Ok(gtid) => Ok(Transaction { gtid: *gtid, term }),
        Err(standing) => Err(*standing),
    }
}

/// What an act of a command was that wrote in this term, if it did.
fn deed_of(post: &Post, term: u64, act: &Act) -> Result<Option<Deed>, OutOfMemory>
    ensures { IfOk result (λ deed. deed ≡ deed_of post.now.messages term act.now) }
{
    match act {
        Act::Took { reply } => Ok(Some(Deed::Took {
            reply: copy_taken(reply),
        })),
        Act::Read { reply } => {
            let reply = copy_read(reply)?;
            Ok(Some(Deed::Read { reply }))
        }
        Act::Intended { alias, reply } => Ok(Some(Deed::Intended {
            alias: *alias,
            reply: copy_set(reply),
        })),
        Act::Recorded { alias, reply } => Ok(Some(Deed::Recorded {
            alias: *alias,
            reply: copy_set(reply),
        })),
        Act::Drained { alias, reply } => Ok(Some(Deed::Drained {
            alias: *alias,
            reply: copy_set(reply),
        })),
        Act::Sent { message } => sent(post, *message),
        Act::Wrote { alias, reply } => Ok(Some(Deed::Wrote {
            alias: *alias,
            reply: written_in(term, reply),
        })),
        Act::Told { committed } => Ok(Some(Deed::Told {
            committed: *committed,
        })),
    }
}

/// The term in which a command wrote, or 0.
fn term_wrote(wrote: &Option<Wrote>) -> u64
    ensures { result ≡ term_wrote wrote.now }
{
    match wrote {
        Some(wrote) => wrote.term,
        None => 0,
    }
}

fn push_deed(span: &mut Vec<Deed>, deed: Deed) -> Result<(), OutOfMemory>
    ensures { OnOk result (span.new.items ≡ span.old.items ++ deed ∷ []) }
{
    span.push(deed)?;
    Ok(())
}

fn push_act(span: &mut Vec<Deed>, post: &Post, term: u64, act: &Act) -> Result<(), OutOfMemory>
    ensures { OnOk result (span.new.items ≡ with_deed span.old.items (deed_of post.now.messages term act.now)) }
{
    match deed_of(post, term, act)? {
        Some(deed) => push_deed(span, deed),
        None => Ok(()),
    }
}

/// What a command did, in order, with what each came to.
pub fn span_of(alloc: Global, post: &Post, state: &CommandState) -> Result<Vec<Deed>, OutOfMemory>
    ensures { IfOk result (λ span. span.items ≡ span_in post.now.messages state.now) }
{
    let term = term_wrote(&state.wrote);
    let mut span = Vec::new(alloc);
    for act in state.acts.as_slice() {
        push_act(&mut span, post, term, act)?;
    }
    Ok(span)
}
