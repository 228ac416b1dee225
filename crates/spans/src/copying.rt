//! The calls of one kind, copied out of what a command did.

ghost use Rattle.std.specs.Prelude.{◌≡◌, ◌++◌, filter, IfOk, OnOk};
ghost use Rattle.std.specs.List.{flat_map};
ghost use Rattle.shard_calls.specs.declared.answer.Answer.TheVariants as says;
ghost use Rattle.shard_calls.specs.Causes.{is_call, calls_of};
ghost use Rattle.spans.specs.Copies.{call_in};

use crate::calls::is_call;
use gtid_sets::GtidSet;
use shard_base::{Items, OutOfMemory};
use shard_calls::{Answer, Asked, Deed, Kind, Outcome, Stand, Why};
use std::alloc::Global;

/// The answer that a tablet lacks these.
fn copy_missing(missing: &GtidSet) -> Result<Answer, OutOfMemory>
    ensures { IfOk result (λ copy. copy ≡ says.NotCaughtUp missing.now) }
{
    let missing = missing.copy()?;
    Ok(Answer::NotCaughtUp { missing })
}

/// The answer that a tablet has these, which its source has not.
fn copy_extra(extra: &GtidSet) -> Result<Answer, OutOfMemory>
    ensures { IfOk result (λ copy. copy ≡ says.Errant extra.now) }
{
    let extra = extra.copy()?;
    Ok(Answer::Errant { extra })
}

fn copy_answer(answer: &Answer) -> Result<Answer, OutOfMemory>
    ensures { IfOk result (λ copy. copy ≡ answer.now) }
{
    match answer {
        Answer::Status {
            seen,
            promised,
            stand,
            newest,
            position,
        } => Ok(Answer::Status {
            seen: *seen,
            promised: *promised,
            stand: *stand,
            newest: *newest,
            position: position.copy()?,
        }),
        Answer::Stopped { newest, position } => Ok(Answer::Stopped {
            newest: *newest,
            position: position.copy()?,
        }),
        Answer::Demoted { newest, position } => Ok(Answer::Demoted {
            newest: *newest,
            position: position.copy()?,
        }),
        Answer::Promoted { position } => Ok(Answer::Promoted {
            position: position.copy()?,
        }),
        Answer::Joined => Ok(Answer::Joined),
        Answer::Feeding => Ok(Answer::Feeding),
        Answer::Holds => Ok(Answer::Holds),
        Answer::Told => Ok(Answer::Told),
        Answer::NotTold => Ok(Answer::NotTold),
        Answer::Kept { stand } => Ok(Answer::Kept { stand: *stand }),
        Answer::StaleTerm { seen } => Ok(Answer::StaleTerm { seen: *seen }),
        Answer::PromisedAhead { promised } => Ok(Answer::PromisedAhead {
            promised: *promised,
        }),
        Answer::NotCaughtUp { missing } => copy_missing(missing),
        Answer::Errant { extra } => copy_extra(extra),
        Answer::NotStanding { newest } => Ok(Answer::NotStanding { newest: *newest }),
    }
}

fn copy_outcome(outcome: &Outcome) -> Result<Outcome, OutOfMemory>
    ensures { IfOk result (λ copy. copy ≡ outcome.now) }
{
    match outcome {
        Outcome::Answered { answer } => {
            let answer = copy_answer(answer)?;
            Ok(Outcome::Answered { answer })
        }
        Outcome::GivenUp { why } => Ok(Outcome::GivenUp { why: *why }),
    }
}

fn copy_settled(outcome: &Option<Outcome>) -> Result<Option<Outcome>, OutOfMemory>
    ensures { IfOk result (λ copy. copy ≡ outcome.now) }
{
    match outcome {
        Some(outcome) => {
            let outcome = copy_outcome(outcome)?;
            Ok(Some(outcome))
        }
        None => Ok(None),
    }
}

fn copy_asked(asked: &Asked) -> Result<Asked, OutOfMemory>
    ensures { IfOk result (λ copy. copy ≡ asked.now) }
{
    let outcome = copy_settled(&asked.outcome)?;
    Ok(Asked {
        alias: asked.alias,
        kind: asked.kind,
        message: asked.message,
        term: asked.term,
        sent: asked.sent,
        arrived: asked.arrived,
        outcome,
    })
}

fn push_call(into: &mut Items<Deed>, kind: Kind, deed: &Deed) -> Result<(), OutOfMemory>
    ensures { OnOk result (into.new ≡ into.old ++ call_in kind deed.now) }
{
    let _stand: Option<&Stand> = None;
    let _why: Option<&Why> = None;
    if !is_call(kind, deed) {
        return Ok(());
    }
    let Deed::Asked { asked } = deed else {
        return Ok(());
    };
    let asked = copy_asked(asked)?;
    into.push(Deed::Asked { asked })
}

fn copied_calls(alloc: Global, kind: Kind, span: &[Deed]) -> Result<Items<Deed>, OutOfMemory>
    ensures { IfOk result (λ calls. calls ≡ flat_map (call_in kind) span.now) }
{
    let mut calls = Items::new(alloc);
    for deed in span {
        push_call(&mut calls, kind, deed)?;
    }
    Ok(calls)
}

/// The calls of one kind.
#[tactic(auto, using(crate::proofs::SpanLemmas::calls_are))]
pub fn calls_of(alloc: Global, kind: Kind, span: &[Deed]) -> Result<Items<Deed>, OutOfMemory>
    ensures { IfOk result (λ calls. calls ≡ calls_of kind span.now) }
{
    copied_calls(alloc, kind, span)
}
