//! Whether two refusals are one.

ghost use Rattle.std.specs.Prelude.{◌≡◌};
ghost use Rattle.shard_calls.specs.Causes.{is_this};
ghost use Rattle.shard_calls.specs.Same.{refusal_eq};
ghost use Rattle.shard_calls.specs.declared.refusal.Refusal.TheVariants as refusals;

use crate::equality::{alias_or_none_eq, bar_eq, position_eq, unacked_eq, why_eq};
use crate::lists::{not_stopped_eq, rejected_eq};
use gtid_sets::GtidSet;
use shard_calls::{Bar, NotStopped, Refusal, Rejected, Unacked, Why};
use shard_names::{Alias, Name};

pub(crate) fn is_lock_taken(term: u64, actor: &Name, refusal: &Refusal) -> bool
    ensures { result ≡ refusal_eq (refusals.LockTaken term actor.now) refusal.now }
{
    match refusal {
        Refusal::LockTaken {
            term: other_term,
            actor: other_actor,
        } => term == *other_term && *actor == *other_actor,
        _ => false,
    }
}

pub(crate) fn is_lock_lost(term: u64, refusal: &Refusal) -> bool
    ensures { result ≡ refusal_eq (refusals.LockLost term) refusal.now }
{
    match refusal {
        Refusal::LockLost { term: other_term } => term == *other_term,
        _ => false,
    }
}

pub(crate) fn is_no_such_tablet(alias: &Alias, refusal: &Refusal) -> bool
    ensures { result ≡ refusal_eq (refusals.NoSuchTablet alias.now) refusal.now }
{
    match refusal {
        Refusal::NoSuchTablet { alias: other_alias } => *alias == *other_alias,
        _ => false,
    }
}

pub(crate) fn is_not_eligible(alias: &Alias, bar: Bar, refusal: &Refusal) -> bool
    ensures { result ≡ refusal_eq (refusals.NotEligible alias.now bar) refusal.now }
{
    match refusal {
        Refusal::NotEligible {
            alias: other_alias,
            bar: other_bar,
        } => *alias == *other_alias && bar_eq(bar, *other_bar),
        _ => false,
    }
}

pub(crate) fn is_expected_primary(recorded: &Option<Alias>, refusal: &Refusal) -> bool
    ensures { result ≡ refusal_eq (refusals.ExpectedPrimary recorded.now) refusal.now }
{
    match refusal {
        Refusal::ExpectedPrimary {
            recorded: other_recorded,
        } => alias_or_none_eq(recorded, other_recorded),
        _ => false,
    }
}

pub(crate) fn is_reparent_pending(alias: &Alias, term: u64, refusal: &Refusal) -> bool
    ensures { result ≡ refusal_eq (refusals.ReparentPending alias.now term) refusal.now }
{
    match refusal {
        Refusal::ReparentPending {
            alias: other_alias,
            term: other_term,
        } => *alias == *other_alias && term == *other_term,
        _ => false,
    }
}

pub(crate) fn is_unreachable(alias: &Alias, why: &Why, refusal: &Refusal) -> bool
    ensures { result ≡ refusal_eq (refusals.Unreachable alias.now why.now) refusal.now }
{
    match refusal {
        Refusal::Unreachable {
            alias: other_alias,
            why: other_why,
        } => *alias == *other_alias && why_eq(why, other_why),
        _ => false,
    }
}

pub(crate) fn is_no_candidate(reasons: &[Rejected], refusal: &Refusal) -> bool
    ensures { result ≡ refusal_eq (refusals.NoCandidate reasons.now) refusal.now }
{
    match refusal {
        Refusal::NoCandidate {
            reasons: other_reasons,
        } => rejected_eq(reasons, other_reasons.as_slice()),
        _ => false,
    }
}

pub(crate) fn is_not_caught_up(
    alias: &Alias,
    missing: &GtidSet,
    since: u64,
    now: u64,
    refusal: &Refusal,
) -> bool
    ensures { result ≡ refusal_eq (refusals.NotCaughtUp alias.now missing.now since now) refusal.now }
{
    match refusal {
        Refusal::NotCaughtUp {
            alias: other_alias,
            missing: other_missing,
            since: other_since,
            now: other_now,
        } => *alias == *other_alias
            && position_eq(missing, other_missing)
            && since == *other_since
            && now == *other_now,
        _ => false,
    }
}

pub(crate) fn is_stale_term(alias: &Alias, seen: u64, refusal: &Refusal) -> bool
    ensures { result ≡ refusal_eq (refusals.StaleTerm alias.now seen) refusal.now }
{
    match refusal {
        Refusal::StaleTerm {
            alias: other_alias,
            seen: other_seen,
        } => *alias == *other_alias && seen == *other_seen,
        _ => false,
    }
}

pub(crate) fn is_not_revoked(alias: &Alias, unreached: &[NotStopped], refusal: &Refusal) -> bool
    ensures { result ≡ refusal_eq (refusals.NotRevoked alias.now unreached.now) refusal.now }
{
    match refusal {
        Refusal::NotRevoked {
            alias: other_alias,
            unreached: other_unreached,
        } => *alias == *other_alias && not_stopped_eq(unreached, other_unreached.as_slice()),
        _ => false,
    }
}

pub(crate) fn is_cannot_establish(alias: &Alias, have: u32, need: u32, refusal: &Refusal) -> bool
    ensures { result ≡ refusal_eq (refusals.CannotEstablish alias.now have need) refusal.now }
{
    match refusal {
        Refusal::CannotEstablish {
            alias: other_alias,
            have: other_have,
            need: other_need,
        } => *alias == *other_alias && have == *other_have && need == *other_need,
        _ => false,
    }
}

pub(crate) fn is_split_brain(
    a: &Alias,
    has_a: &GtidSet,
    b: &Alias,
    has_b: &GtidSet,
    refusal: &Refusal,
) -> bool
    ensures { result ≡ refusal_eq (refusals.SplitBrain a.now has_a.now b.now has_b.now) refusal.now }
{
    match refusal {
        Refusal::SplitBrain {
            a: other_a,
            has_a: other_has_a,
            b: other_b,
            has_b: other_has_b,
        } => *a == *other_a
            && position_eq(has_a, other_has_a)
            && *b == *other_b
            && position_eq(has_b, other_has_b),
        _ => false,
    }
}

pub(crate) fn is_cross_cell(alias: &Alias, refusal: &Refusal) -> bool
    ensures { result ≡ refusal_eq (refusals.CrossCell alias.now) refusal.now }
{
    match refusal {
        Refusal::CrossCell { alias: other_alias } => *alias == *other_alias,
        _ => false,
    }
}

pub(crate) fn is_not_acknowledged(alias: &Alias, cause: &Unacked, refusal: &Refusal) -> bool
    ensures { result ≡ refusal_eq (refusals.NotAcknowledged alias.now cause.now) refusal.now }
{
    match refusal {
        Refusal::NotAcknowledged {
            alias: other_alias,
            cause: other_cause,
        } => *alias == *other_alias && unacked_eq(cause, other_cause),
        _ => false,
    }
}

pub(crate) fn is_errant(alias: &Alias, extra: &GtidSet, refusal: &Refusal) -> bool
    ensures { result ≡ refusal_eq (refusals.Errant alias.now extra.now) refusal.now }
{
    match refusal {
        Refusal::Errant {
            alias: other_alias,
            extra: other_extra,
        } => *alias == *other_alias && position_eq(extra, other_extra),
        _ => false,
    }
}

pub(crate) fn is_not_promoted(alias: &Alias, newest: u64, refusal: &Refusal) -> bool
    ensures { result ≡ refusal_eq (refusals.NotPromoted alias.now newest) refusal.now }
{
    match refusal {
        Refusal::NotPromoted {
            alias: other_alias,
            newest: other_newest,
        } => *alias == *other_alias && newest == *other_newest,
        _ => false,
    }
}

/// Whether the two are one refusal. Logs are compared by their transactions. It takes no memory.
pub fn refusal_eq(refusal: &Refusal, other: &Refusal) -> bool
    ensures { result ≡ refusal_eq refusal.now other.now }
{
    match refusal {
        Refusal::LockTaken { term, actor } => is_lock_taken(*term, actor, other),
        Refusal::LockLost { term } => is_lock_lost(*term, other),
        Refusal::NoSuchTablet { alias } => is_no_such_tablet(alias, other),
        Refusal::NotEligible { alias, bar } => is_not_eligible(alias, *bar, other),
        Refusal::ExpectedPrimary { recorded } => is_expected_primary(recorded, other),
        Refusal::ReparentPending { alias, term } => is_reparent_pending(alias, *term, other),
        Refusal::Unreachable { alias, why } => is_unreachable(alias, why, other),
        Refusal::NoCandidate { reasons } => is_no_candidate(reasons.as_slice(), other),
        Refusal::NotCaughtUp {
            alias,
            missing,
            since,
            now,
        } => is_not_caught_up(alias, missing, *since, *now, other),
        Refusal::StaleTerm { alias, seen } => is_stale_term(alias, *seen, other),
        Refusal::NotRevoked { alias, unreached } => is_not_revoked(
            alias,
            unreached.as_slice(),
            other,
        ),
        Refusal::CannotEstablish { alias, have, need } => is_cannot_establish(
            alias, *have, *need, other,
        ),
        Refusal::SplitBrain { a, has_a, b, has_b } => is_split_brain(a, has_a, b, has_b, other),
        Refusal::CrossCell { alias } => is_cross_cell(alias, other),
        Refusal::NotAcknowledged { alias, cause } => is_not_acknowledged(alias, cause, other),
        Refusal::Errant { alias, extra } => is_errant(alias, extra, other),
        Refusal::NotPromoted { alias, newest } => is_not_promoted(alias, *newest, other),
        Refusal::BothGiven => matches!(other, Refusal::BothGiven),
        Refusal::OutOfMemory => matches!(other, Refusal::OutOfMemory),
    }
}

/// Whether it is this one, if there is one.
pub fn is_this(refusal: &Refusal, found: &Option<Refusal>) -> bool
    ensures { result ≡ is_this refusal.now found.now }
{
    match found {
        Some(found) => refusal_eq(found, refusal),
        None => false,
    }
}
