//! Tests on what a command did: on its calls and what they came to, and on what it read.

ghost use Rattle.std.specs.Prelude.{◌≡◌, ◌≤◌, ◌&&◌, length, position, take};
ghost use Rattle.std.specs.List.{list_any, position_or_len};
ghost use Rattle.shard_names.specs.Tablets.{alias_eq};
ghost use Rattle.shard_calls.specs.Kinds.{kind_eq};
ghost use Rattle.shard_calls.specs.Refusals.{refusal_to, refusal_after, refusal_by_topology};
ghost use Rattle.shard_calls.specs.declared.answer.Answer.TheVariants as says;
ghost use Rattle.shard_calls.specs.Causes.{is_this, refusal_of_asked, refusal_by_call, call_refuses, topology_refuses, is_call, outcome_passes, answer_passes, any_answer, is_intended, before_first, is_taking, from_first, is_needed_by_planned, is_of_catching_up, is_needed_by_emergency, is_set_source_kind, is_status_kind, is_promoted_answer};
ghost use Rattle.spans.specs.Needed.{is_needed};

use crate::equality::kind_eq;
use crate::same::{
    is_errant, is_not_acknowledged, is_not_caught_up, is_stale_term, is_this, is_unreachable,
};
use refusals::{is_of_promotion, refusal_by_topology};
use shard_calls::{Answer, Asked, Deed, Kind, Outcome, Refusal, Stand, Unacked};
use shard_names::Alias;

/// Which calls a command needs.
#[derive(Clone, Copy)]
pub enum Needed {
    /// A planned reparent, before anything is undone.
    Planned,
    /// A planned reparent, so that a tablet catches up with the old primary.
    CatchingUp,
    /// An emergency reparent, once it has chosen.
    Emergency,
    /// Those that tell a tablet to replicate.
    SetSource,
    /// Those that ask a tablet for its status.
    Status,
}

fn is_needed_by_planned(kind: Kind) -> bool
    ensures { result ≡ is_needed_by_planned kind }
{
    matches!(kind, Kind::Demote | Kind::Promote | Kind::WaitTold)
}

fn is_of_catching_up(kind: Kind) -> bool
    ensures { result ≡ is_of_catching_up kind }
{
    matches!(kind, Kind::SetSource | Kind::WaitFor)
}

fn is_needed_by_emergency(kind: Kind) -> bool
    ensures { result ≡ is_needed_by_emergency kind }
{
    matches!(
        kind,
        Kind::Promote | Kind::Feed | Kind::WaitFor | Kind::WaitTold
    )
}

fn is_needed(needed: Needed, kind: Kind) -> bool
    ensures { result ≡ is_needed needed kind }
{
    match needed {
        Needed::Planned => is_needed_by_planned(kind),
        Needed::CatchingUp => is_of_catching_up(kind),
        Needed::Emergency => is_needed_by_emergency(kind),
        Needed::SetSource => kind_eq(kind, Kind::SetSource),
        Needed::Status => kind_eq(kind, Kind::Status),
    }
}

// ---- whether a call refuses the command so

fn keeps_so(refusal: &Refusal, asked: &Asked, stand: &Stand) -> bool
    ensures { result ≡ is_this refusal.now (refusal_to asked.now (says.Kept stand.now)) }
{
    if !is_of_promotion(asked.kind) {
        return false;
    }
    let cause = Unacked::Kept {
        stand: stand.standing(),
    };
    is_not_acknowledged(&asked.alias, &cause, refusal)
}

fn is_not_told(refusal: &Refusal, asked: &Asked) -> bool
    ensures { result ≡ is_this refusal.now (refusal_to asked.now says.NotTold) }
{
    let cause = Unacked::NotTold {
        since: asked.sent,
        now: asked.arrived,
    };
    is_not_acknowledged(&asked.alias, &cause, refusal)
}

fn answers_so(refusal: &Refusal, asked: &Asked, answer: &Answer) -> bool
    ensures { result ≡ is_this refusal.now (refusal_to asked.now answer.now) }
{
    match answer {
        Answer::NotTold => is_not_told(refusal, asked),
        Answer::Kept { stand } => keeps_so(refusal, asked, stand),
        Answer::StaleTerm { seen } => is_stale_term(&asked.alias, *seen, refusal),
        Answer::NotCaughtUp { missing } => {
            is_not_caught_up(&asked.alias, missing, asked.sent, asked.arrived, refusal)
        }
        Answer::Errant { extra } => is_errant(&asked.alias, extra, refusal),
        _ => false,
    }
}

fn comes_to(refusal: &Refusal, asked: &Asked, outcome: &Outcome) -> bool
    ensures { result ≡ is_this refusal.now (refusal_after asked.now outcome.now) }
{
    match outcome {
        Outcome::Answered { answer } => answers_so(refusal, asked, answer),
        Outcome::GivenUp { why } => is_unreachable(&asked.alias, why, refusal),
    }
}

fn asked_refuses(needed: Needed, refusal: &Refusal, asked: &Asked) -> bool
    ensures { result ≡ is_this refusal.now (refusal_of_asked (is_needed needed) asked.now) }
{
    if !is_needed(needed, asked.kind) {
        return false;
    }
    match &asked.outcome {
        Some(outcome) => comes_to(refusal, asked, outcome),
        None => false,
    }
}

fn deed_refuses(needed: Needed, refusal: &Refusal, deed: &Deed) -> bool
    ensures { result ≡ is_this refusal.now (refusal_by_call (is_needed needed) deed.now) }
{
    match deed {
        Deed::Asked { asked } => asked_refuses(needed, refusal, asked),
        _ => false,
    }
}

/// Whether a call that is needed refuses the command so.
pub fn call_refuses(needed: Needed, refusal: &Refusal, span: &[Deed]) -> bool
    ensures { result ≡ call_refuses (is_needed needed) refusal.now span.now }
{
    span.iter().any(|deed| deed_refuses(needed, refusal, deed))
}

fn lock_refuses(refusal: &Refusal, deed: &Deed) -> bool
    ensures { result ≡ is_this refusal.now (refusal_by_topology deed.now) }
{
    is_this(refusal, &refusal_by_topology(deed))
}

/// Whether the topology refuses the command so.
pub fn topology_refuses(refusal: &Refusal, span: &[Deed]) -> bool
    ensures { result ≡ topology_refuses refusal.now span.now }
{
    span.iter().any(|deed| lock_refuses(refusal, deed))
}

// ---- the calls of one kind

/// Whether it is a call of this kind.
pub fn is_call(kind: Kind, deed: &Deed) -> bool
    ensures { result ≡ is_call kind deed.now }
{
    match deed {
        Deed::Asked { asked } => kind_eq(asked.kind, kind),
        _ => false,
    }
}

/// Whether it is a call of this kind to this tablet.
pub fn is_to(kind: Kind, alias: &Alias, asked: &Asked) -> bool
    ensures { result ≡ (kind_eq asked.now.kind kind && alias_eq asked.now.alias alias.now) }
{
    kind_eq(asked.kind, kind) && asked.alias == *alias
}

/// Whether a tablet was promoted.
pub fn is_promoted_answer(outcome: &Option<Outcome>) -> bool
    ensures { result ≡ outcome_passes is_promoted_answer outcome.now }
{
    matches!(
        outcome,
        Some(Outcome::Answered {
            answer: Answer::Promoted { .. }
        })
    )
}

/// Whether it is an intent.
pub fn is_intended(deed: &Deed) -> bool
    ensures { result ≡ is_intended deed.now }
{
    matches!(deed, Deed::Intended { .. })
}

fn first_intent(span: &[Deed]) -> Option<usize>
    ensures { result ≡ position is_intended span.now }
{
    span.iter().position(|deed| is_intended(deed))
}

#[tactic(auto, using(crate::proofs::SpanLemmas::intent_at, crate::proofs::SpanLemmas::no_intent))]
fn count_before(span: &[Deed]) -> usize
    ensures { result ≡ position_or_len is_intended span.now }
{
    match first_intent(span) {
        Some(place) => place,
        None => span.len(),
    }
}

fn front(span: &[Deed], count: usize) -> &[Deed]
    requires { count ≤ length span.now }
    ensures { result.now ≡ take count span.now }
{
    &span[..count]
}

/// What was done before the first intent.
#[tactic(auto, using(crate::proofs::SpanLemmas::before_is_front, crate::proofs::SpanLemmas::before_within))]
pub fn before_intent(span: &[Deed]) -> &[Deed]
    ensures { result.now ≡ before_first is_intended span.now }
{
    front(span, count_before(span))
}

fn is_taking(deed: &Deed) -> bool
    ensures { result ≡ is_taking deed.now }
{
    matches!(deed, Deed::Took { .. })
}

/// What was done since the lock was first asked for.
pub fn from_taking(span: &[Deed]) -> &[Deed]
    ensures { result.now ≡ from_first is_taking span.now }
{
    let mut left = span;
    while let Some((deed, more)) = left.split_first() {
        if is_taking(deed) {
            return left;
        }
        left = more;
    }
    left
}
