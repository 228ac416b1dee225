//! Whether two lists of a kind are one.

ghost use Rattle.std.specs.Prelude.{◌≡◌, ◌&&◌, ◌==◌, length};
ghost use Rattle.std.specs.List.{list_all, zip};
ghost use Rattle.shard_calls.specs.Same.{rejected_eq, not_stopped_eq, not_joined_eq, rows_eq};
ghost use Rattle.spans.specs.Lists.{are_same, same_rejected, same_not_stopped, same_not_joined, same_row};

use crate::equality::{left_eq, reason_eq, shown_type_eq, unreached_eq};
use shard_calls::{NotJoined, NotStopped, Rejected, TabletRow};

fn same_rejected(x: &Rejected, y: &Rejected) -> bool
    ensures { result ≡ same_rejected x.now y.now }
{
    x.alias == y.alias && reason_eq(x.reason, y.reason)
}

fn pairs_rejected(xs: &[Rejected], ys: &[Rejected]) -> bool
    ensures { result ≡ list_all (λ p. same_rejected p.0 p.1) (zip xs.now ys.now) }
{
    xs.iter().zip(ys).all(|(x, y)| same_rejected(x, y))
}

#[tactic(auto, using(crate::proofs::SameLemmas::rejected_uneven))]
pub(crate) fn rejected_eq(xs: &[Rejected], ys: &[Rejected]) -> bool
    ensures { result ≡ rejected_eq xs.now ys.now }
{
    if xs.len() != ys.len() {
        return false;
    }
    pairs_rejected(xs, ys)
}

fn same_not_stopped(x: &NotStopped, y: &NotStopped) -> bool
    ensures { result ≡ same_not_stopped x.now y.now }
{
    x.alias == y.alias && unreached_eq(&x.unreached, &y.unreached)
}

fn pairs_not_stopped(xs: &[NotStopped], ys: &[NotStopped]) -> bool
    ensures { result ≡ list_all (λ p. same_not_stopped p.0 p.1) (zip xs.now ys.now) }
{
    xs.iter().zip(ys).all(|(x, y)| same_not_stopped(x, y))
}

#[tactic(auto, using(crate::proofs::SameLemmas::not_stopped_uneven))]
pub(crate) fn not_stopped_eq(xs: &[NotStopped], ys: &[NotStopped]) -> bool
    ensures { result ≡ not_stopped_eq xs.now ys.now }
{
    if xs.len() != ys.len() {
        return false;
    }
    pairs_not_stopped(xs, ys)
}

fn same_not_joined(x: &NotJoined, y: &NotJoined) -> bool
    ensures { result ≡ same_not_joined x.now y.now }
{
    x.alias == y.alias && left_eq(&x.left, &y.left)
}

fn pairs_not_joined(xs: &[NotJoined], ys: &[NotJoined]) -> bool
    ensures { result ≡ list_all (λ p. same_not_joined p.0 p.1) (zip xs.now ys.now) }
{
    xs.iter().zip(ys).all(|(x, y)| same_not_joined(x, y))
}

#[tactic(auto, using(crate::proofs::SameLemmas::not_joined_uneven))]
pub(crate) fn not_joined_eq(xs: &[NotJoined], ys: &[NotJoined]) -> bool
    ensures { result ≡ not_joined_eq xs.now ys.now }
{
    if xs.len() != ys.len() {
        return false;
    }
    pairs_not_joined(xs, ys)
}

/// Whether the two are one row.
pub fn same_row(x: &TabletRow, y: &TabletRow) -> bool
    ensures { result ≡ same_row x.now y.now }
{
    x.alias == y.alias && x.server == y.server && shown_type_eq(x.kind, y.kind)
}
