//! What came of the repairs of tablets beside their primary.

ghost use Rattle.std.specs.Prelude.{◌≡◌, ◌++◌, [], ◌∷◌, None, IfOk, OnOk};
ghost use Rattle.std.specs.List.{flat_map};
ghost use Rattle.shard_calls.specs.Causes.{is_set_source_kind, joined_or_left, line_of_call, line_of, lines_beside};
ghost use Rattle.shard_calls.specs.declared.ending.Rest.TheVariants as lines;
ghost use Rattle.shard_calls.specs.declared.refusal.Refusal.TheVariants as refusals;
ghost use Rattle.shard_calls.specs.declared.span.Deed.TheVariants as deeds;

use refusals::left_by;
use shard_base::{Items, OutOfMemory};
use shard_calls::{
    Asked, Bar, Deed, Kind, Left, NotJoined, NotStopped, Reason, Refusal, Rejected, Rest, Standing,
    Unacked, Unreached, Why,
};
use shard_names::Alias;
use std::alloc::Global;
use topo_lock::{LockTaken, Record};

/// Whether the tablet joined this primary, or else why not.
pub fn joined_or_left(primary: &Alias, alias: &Alias, left: Option<Left>) -> Rest
    ensures { result ≡ joined_or_left primary.now alias.now left }
{
    match left {
        Some(left) => Rest::Left {
            alias: *alias,
            left,
        },
        None => Rest::Joined {
            alias: *alias,
            to: *primary,
        },
    }
}

fn push_rest(into: &mut Items<Rest>, rest: Rest) -> Result<(), OutOfMemory>
    ensures { OnOk result (into.new ≡ into.old ++ rest ∷ []) }
{
    let _refusal: Option<&Refusal> = None;
    let _bar: Option<&Bar> = None;
    let _reason: Option<&Reason> = None;
    let _rejected: Option<&Rejected> = None;
    let _stopped: Option<&NotStopped> = None;
    let _unreached: Option<&Unreached> = None;
    let _unacked: Option<&Unacked> = None;
    let _standing: Option<&Standing> = None;
    let _joined: Option<&NotJoined> = None;
    let _left: Option<&Left> = None;
    let _why: Option<&Why> = None;
    into.push(rest)
}

fn is_set_source(asked: &Asked) -> bool
    ensures { result ≡ is_set_source_kind asked.now.kind }
{
    matches!(asked.kind, Kind::SetSource)
}

fn push_joined(into: &mut Items<Rest>, primary: &Alias, asked: &Asked) -> Result<(), OutOfMemory>
    ensures { OnOk result (into.new ≡ into.old ++ line_of_call primary.now asked.now.alias asked.now.outcome) }
{
    let Some(outcome) = &asked.outcome else {
        return Ok(());
    };
    let left = left_by(outcome)?;
    push_rest(into, joined_or_left(primary, &asked.alias, left))
}

fn push_asked(into: &mut Items<Rest>, primary: &Alias, asked: &Asked) -> Result<(), OutOfMemory>
    ensures { OnOk result (into.new ≡ into.old ++ line_of primary.now (deeds.Asked asked.now)) }
{
    if !is_set_source(asked) {
        return Ok(());
    }
    push_joined(into, primary, asked)
}

fn lock_taken(held: &LockTaken) -> Rest
    ensures { result ≡ lines.Refused (refusals.LockTaken held.now.term held.now.actor) None }
{
    Rest::Refused {
        refusal: Refusal::LockTaken {
            term: held.term,
            actor: held.actor,
        },
        undone: None,
    }
}

fn lock_lost(term: u64) -> Rest
    ensures { result ≡ lines.Refused (refusals.LockLost term) None }
{
    Rest::Refused {
        refusal: Refusal::LockLost { term },
        undone: None,
    }
}

/// Puts at the end what came of this repair beside the primary, if it is one.
fn push_line(into: &mut Items<Rest>, primary: &Alias, deed: &Deed) -> Result<(), OutOfMemory>
    ensures { OnOk result (into.new ≡ into.old ++ line_of primary.now deed.now) }
{
    match deed {
        Deed::Took { reply: Err(held) } => push_rest(into, lock_taken(held)),
        Deed::Drained {
            alias,
            reply: Ok(_),
        } => push_rest(into, Rest::Drained { alias: *alias }),
        Deed::Drained {
            reply: Err(term),
            ..
        } => push_rest(into, lock_lost(*term)),
        Deed::Asked { asked } => push_asked(into, primary, asked),
        _ => Ok(()),
    }
}

fn lines_of(alloc: Global, primary: &Alias, deeds: &[Deed]) -> Result<Items<Rest>, OutOfMemory>
    ensures { IfOk result (λ lines. lines ≡ flat_map (line_of primary.now) deeds.now) }
{
    let mut lines = Items::new(alloc);
    for deed in deeds {
        push_line(&mut lines, primary, deed)?;
    }
    Ok(lines)
}

/// What came of the repairs beside the recorded primary, in order: whether tablets joined it or why not, which were marked as drained, and that
/// the lock was held or lost.
pub fn lines_beside(
    alloc: Global,
    recorded: &Option<Record>,
    deeds: &[Deed],
) -> Result<Items<Rest>, OutOfMemory>
    ensures { IfOk result (λ lines. lines ≡ lines_beside recorded.now deeds.now) }
{
    match recorded {
        Some(record) => lines_of(alloc, &record.alias, deeds),
        None => Ok(Items::new(alloc)),
    }
}
