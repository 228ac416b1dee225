//! Whether a `PlannedReparentShard` tried to give the old primary its place back, and why.

ghost use Rattle.std.specs.Prelude.{◌≡◌, find};
ghost use Rattle.std.specs.List.{list_any};
ghost use Rattle.std.specs.Option.{option_copied};
ghost use Rattle.shard_calls.specs.declared.span.Kind.TheVariants as kinds;
ghost use Rattle.shard_calls.specs.Causes.{read_passes, any_read, is_call, answer_passes, is_promoted_answer, is_intended, before_first, intends_first, undoes, is_undo_of, is_promoted_again, same_answer, undo_refuses};
ghost use Rattle.causes.specs.Undoing.{intends};

use shard_calls::{Deed, Kind, Refusal, Seen};
use shard_names::Alias;
use spans::{Needed, before_intent, call_refuses, is_call, is_intended, is_promoted_answer, is_to};
use topo_lock::Intent;

fn first_intended(span: &[Deed]) -> Option<&Deed>
    ensures { option_copied result ≡ find is_intended span.now }
{
    span.iter().find(|deed| is_intended(deed))
}

/// Whether the first tablet that was intended is this one.
fn intends_first(alias: &Alias, span: &[Deed]) -> bool
    ensures { result ≡ intends alias.now (find is_intended span.now) }
{
    match first_intended(span) {
        Some(Deed::Intended { alias: other, .. }) => *other == *alias,
        _ => false,
    }
}

fn has_told(span: &[Deed]) -> bool
    ensures { result ≡ list_any (is_call kinds.SetSource) span.now }
{
    span.iter().any(|deed| is_call(Kind::SetSource, deed))
}

#[tactic(auto, using(crate::proofs::UndoLemmas::intends_found))]
fn undoes(old: &Alias, span: &[Deed]) -> bool
    ensures { result ≡ undoes old.now span.now }
{
    has_told(before_intent(span)) && intends_first(old, span)
}

fn is_undo_of(intent: &Option<Intent>, span: &[Deed]) -> bool
    ensures { result ≡ is_undo_of intent.now span.now }
{
    match intent {
        Some(intent) => undoes(&intent.alias, span),
        None => false,
    }
}

fn undo_is_of(span: &[Deed], deed: &Deed) -> bool
    ensures { result ≡ read_passes (λ seen. is_undo_of seen.intent span.now) deed.now }
{
    match deed {
        Deed::Read { reply: Ok(seen) } => is_undo_of(&seen.intent, span),
        _ => false,
    }
}

/// Whether an undo was tried.
pub(crate) fn has_undone(span: &[Deed]) -> bool
    ensures { result ≡ any_read (λ seen. is_undo_of seen.intent span.now) span.now }
{
    span.iter().any(|deed| undo_is_of(span, deed))
}

fn promotes_again(old: &Alias, deed: &Deed) -> bool
    ensures { result ≡ answer_passes kinds.Promote old.now is_promoted_answer deed.now }
{
    match deed {
        Deed::Asked { asked } => {
            is_to(Kind::Promote, old, asked) && is_promoted_answer(&asked.outcome)
        }
        _ => false,
    }
}

fn is_promoted_again(old: &Alias, span: &[Deed]) -> bool
    ensures { result ≡ is_promoted_again old.now span.now }
{
    span.iter().any(|deed| promotes_again(old, deed))
}

fn same_answer(b: bool, c: bool) -> bool
    ensures { result ≡ same_answer b c }
{
    if b { c } else { !c }
}

fn undo_refuses(span: &[Deed], refusal: &Refusal, undone: bool, seen: &Seen) -> bool
    ensures { result ≡ undo_refuses span.now refusal.now undone seen.now }
{
    match &seen.intent {
        Some(intent) => {
            undoes(&intent.alias, span)
                && same_answer(is_promoted_again(&intent.alias, span), undone)
                && call_refuses(Needed::CatchingUp, refusal, before_intent(span))
        }
        None => false,
    }
}

fn undo_is_refused(span: &[Deed], refusal: &Refusal, undone: bool, deed: &Deed) -> bool
    ensures { result ≡ read_passes (undo_refuses span.now refusal.now undone) deed.now }
{
    match deed {
        Deed::Read { reply: Ok(seen) } => undo_refuses(span, refusal, undone, seen),
        _ => false,
    }
}

/// Whether an undo was tried, and whether it worked is `undone`, since the command was refused so.
pub(crate) fn any_undo_refuses(span: &[Deed], refusal: &Refusal, undone: bool) -> bool
    ensures { result ≡ any_read (undo_refuses span.now refusal.now undone) span.now }
{
    span.iter()
        .any(|deed| undo_is_refused(span, refusal, undone, deed))
}
