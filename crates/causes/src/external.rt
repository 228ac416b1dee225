//! The causes of the answers of a `TabletExternallyReparented`.

ghost use Rattle.std.specs.Prelude.{◌≡◌, ◌&&◌, ◌||◌, Some, is_none};
ghost use Rattle.std.specs.List.{list_any};
ghost use Rattle.shard_calls.specs.Refusals.{refusal_of_undeclared, term_of_promoted};
ghost use Rattle.shard_calls.specs.declared.span.Kind.TheVariants as kinds;
ghost use Rattle.shard_calls.specs.Causes.{is_this, is_err_of, is_ok_of, read_passes, any_read, outcome_passes, answer_passes, any_answer, topology_refuses, call_refuses, is_status_kind, is_not_promoted, stands_promoted, records_it, is_want_of_memory, external_is_refused, has_external_cause};

use crate::planned::is_want_of_memory;
use refusals::{refusal_of_undeclared, term_of_promoted};
use shard_calls::{Answer, CommandAnswer, Deed, Group, Kind, Outcome, Refusal};
use shard_names::Alias;
use spans::{Needed, call_refuses, is_this, is_to, records_it, refusal_eq, topology_refuses};
use topo_lock::Intent;

fn is_err_of(refusal: &Refusal, term: &Result<u64, Refusal>) -> bool
    ensures { result ≡ is_err_of refusal.now term.now }
{
    match term {
        Err(found) => refusal_eq(found, refusal),
        Ok(_) => false,
    }
}

fn is_ok_of(term: u64, found: &Result<u64, Refusal>) -> bool
    ensures { result ≡ is_ok_of term found.now }
{
    match found {
        Ok(found) => *found == term,
        Err(_) => false,
    }
}

// ---- not promoted

fn is_not_promoted(
    alias: &Alias,
    intent: &Option<Intent>,
    refusal: &Refusal,
    answer: &Answer,
) -> bool
    ensures { result ≡ is_not_promoted alias.now intent.now refusal.now answer.now }
{
    match answer {
        Answer::Status { stand, newest, .. } => {
            is_err_of(refusal, &term_of_promoted(alias, *newest, intent, stand))
        }
        _ => false,
    }
}

fn came_to_nothing(
    alias: &Alias,
    intent: &Option<Intent>,
    refusal: &Refusal,
    outcome: &Option<Outcome>,
) -> bool
    ensures { result ≡ outcome_passes (is_not_promoted alias.now intent.now refusal.now) outcome.now }
{
    match outcome {
        Some(Outcome::Answered { answer }) => is_not_promoted(alias, intent, refusal, answer),
        _ => false,
    }
}

fn status_refuses(alias: &Alias, intent: &Option<Intent>, refusal: &Refusal, deed: &Deed) -> bool
    ensures { result ≡ answer_passes kinds.Status alias.now (is_not_promoted alias.now intent.now refusal.now) deed.now }
{
    match deed {
        Deed::Asked { asked } => {
            is_to(Kind::Status, alias, asked)
                && came_to_nothing(alias, intent, refusal, &asked.outcome)
        }
        _ => false,
    }
}

fn any_status_refuses(
    alias: &Alias,
    intent: &Option<Intent>,
    refusal: &Refusal,
    span: &[Deed],
) -> bool
    ensures { result ≡ any_answer kinds.Status alias.now (is_not_promoted alias.now intent.now refusal.now) span.now }
{
    span.iter()
        .any(|deed| status_refuses(alias, intent, refusal, deed))
}

fn read_refuses(alias: &Alias, refusal: &Refusal, span: &[Deed], deed: &Deed) -> bool
    ensures { result ≡ read_passes (λ seen. any_answer kinds.Status alias.now (is_not_promoted alias.now seen.intent refusal.now) span.now) deed.now }
{
    match deed {
        Deed::Read { reply: Ok(seen) } => any_status_refuses(alias, &seen.intent, refusal, span),
        _ => false,
    }
}

fn any_read_refuses(alias: &Alias, refusal: &Refusal, span: &[Deed]) -> bool
    ensures { result ≡ any_read (λ seen. any_answer kinds.Status alias.now (is_not_promoted alias.now seen.intent refusal.now) span.now) span.now }
{
    span.iter()
        .any(|deed| read_refuses(alias, refusal, span, deed))
}

// ---- promoted

fn stands_promoted(alias: &Alias, intent: &Option<Intent>, term: u64, answer: &Answer) -> bool
    ensures { result ≡ stands_promoted alias.now intent.now term answer.now }
{
    match answer {
        Answer::Status { stand, newest, .. } => {
            is_ok_of(term, &term_of_promoted(alias, *newest, intent, stand))
        }
        _ => false,
    }
}

fn came_promoted(
    alias: &Alias,
    intent: &Option<Intent>,
    term: u64,
    outcome: &Option<Outcome>,
) -> bool
    ensures { result ≡ outcome_passes (stands_promoted alias.now intent.now term) outcome.now }
{
    match outcome {
        Some(Outcome::Answered { answer }) => stands_promoted(alias, intent, term, answer),
        _ => false,
    }
}

fn status_shows(alias: &Alias, intent: &Option<Intent>, term: u64, deed: &Deed) -> bool
    ensures { result ≡ answer_passes kinds.Status alias.now (stands_promoted alias.now intent.now term) deed.now }
{
    match deed {
        Deed::Asked { asked } => {
            is_to(Kind::Status, alias, asked) && came_promoted(alias, intent, term, &asked.outcome)
        }
        _ => false,
    }
}

fn any_status_shows(alias: &Alias, intent: &Option<Intent>, term: u64, span: &[Deed]) -> bool
    ensures { result ≡ any_answer kinds.Status alias.now (stands_promoted alias.now intent.now term) span.now }
{
    span.iter()
        .any(|deed| status_shows(alias, intent, term, deed))
}

fn read_shows(alias: &Alias, term: u64, span: &[Deed], deed: &Deed) -> bool
    ensures { result ≡ read_passes (λ seen. any_answer kinds.Status alias.now (stands_promoted alias.now seen.intent term) span.now) deed.now }
{
    match deed {
        Deed::Read { reply: Ok(seen) } => any_status_shows(alias, &seen.intent, term, span),
        _ => false,
    }
}

fn any_read_shows(alias: &Alias, term: u64, span: &[Deed]) -> bool
    ensures { result ≡ any_read (λ seen. any_answer kinds.Status alias.now (stands_promoted alias.now seen.intent term) span.now) span.now }
{
    span.iter().any(|deed| read_shows(alias, term, span, deed))
}

fn any_records(alias: &Alias, span: &[Deed]) -> bool
    ensures { result ≡ list_any (records_it alias.now) span.now }
{
    span.iter().any(|deed| records_it(alias, deed))
}

// ---- the causes

fn is_refused(group: &Group, alias: &Alias, span: &[Deed], refusal: &Refusal) -> bool
    ensures { result ≡ external_is_refused group.now alias.now span.now refusal.now }
{
    is_this(refusal, &refusal_of_undeclared(group, &Some(*alias)))
        || topology_refuses(refusal, span)
        || call_refuses(Needed::Status, refusal, span)
        || any_read_refuses(alias, refusal, span)
}

/// Whether a `TabletExternallyReparented` of this tablet that did this may end with the answer. It takes no memory.
pub fn has_external_cause(
    group: &Group,
    alias: &Alias,
    span: &[Deed],
    answer: &CommandAnswer,
) -> bool
    ensures { result ≡ has_external_cause group.now alias.now span.now answer.now }
{
    match answer {
        CommandAnswer::Recorded { term } => {
            any_read_shows(alias, *term, span) && any_records(alias, span)
        }
        CommandAnswer::Refused { refusal, undone } => {
            undone.is_none()
                && (is_want_of_memory(refusal) || is_refused(group, alias, span, refusal))
        }
        _ => false,
    }
}
