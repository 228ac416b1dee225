//! Whether what two `vtorc` found, and did about it, is one.

ghost use Rattle.std.specs.Prelude.{◌≡◌, ◌&&◌, ◌==◌, length};
ghost use Rattle.std.specs.List.{list_all, zip};
ghost use Rattle.shard_calls.specs.declared.ending.Rest.TheVariants as lines;
ghost use Rattle.shard_calls.specs.Same.{findings_eq, line_eq, lines_eq};
ghost use Rattle.spans.specs.Lists.{same_finding};

use crate::equality::{analysis_eq, left_eq, undone_eq};
use crate::lists::not_joined_eq;
use crate::same::refusal_eq;
use shard_calls::{Finding, Left, NotJoined, Refusal, Rest};
use shard_names::Alias;

fn same_finding(x: &Finding, y: &Finding) -> bool
    ensures { result ≡ same_finding x.now y.now }
{
    x.alias == y.alias && analysis_eq(x.analysis, y.analysis)
}

fn pairs_findings(xs: &[Finding], ys: &[Finding]) -> bool
    ensures { result ≡ list_all (λ p. same_finding p.0 p.1) (zip xs.now ys.now) }
{
    xs.iter().zip(ys).all(|(x, y)| same_finding(x, y))
}

/// Whether the two are the same findings. It takes no memory.
#[tactic(auto, using(crate::proofs::SameLemmas::findings_uneven))]
pub fn findings_eq(xs: &[Finding], ys: &[Finding]) -> bool
    ensures { result ≡ findings_eq xs.now ys.now }
{
    if xs.len() != ys.len() {
        return false;
    }
    pairs_findings(xs, ys)
}

fn is_promoted(alias: &Alias, term: u64, left: &[NotJoined], line: &Rest) -> bool
    ensures { result ≡ line_eq (lines.Promoted alias.now term left.now) line.now }
{
    match line {
        Rest::Promoted {
            alias: other,
            term: other_term,
            left: other_left,
        } => *alias == *other && term == *other_term && not_joined_eq(left, other_left.as_slice()),
        _ => false,
    }
}

fn is_refused(refusal: &Refusal, undone: &Option<bool>, line: &Rest) -> bool
    ensures { result ≡ line_eq (lines.Refused refusal.now undone.now) line.now }
{
    match line {
        Rest::Refused {
            refusal: other,
            undone: other_undone,
        } => refusal_eq(refusal, other) && undone_eq(undone, other_undone),
        _ => false,
    }
}

fn is_joined(alias: &Alias, to: &Alias, line: &Rest) -> bool
    ensures { result ≡ line_eq (lines.Joined alias.now to.now) line.now }
{
    match line {
        Rest::Joined {
            alias: other,
            to: other_to,
        } => *alias == *other && *to == *other_to,
        _ => false,
    }
}

fn is_left(alias: &Alias, left: &Left, line: &Rest) -> bool
    ensures { result ≡ line_eq (lines.Left alias.now left.now) line.now }
{
    match line {
        Rest::Left {
            alias: other,
            left: other_left,
        } => *alias == *other && left_eq(left, other_left),
        _ => false,
    }
}

fn is_drained(alias: &Alias, line: &Rest) -> bool
    ensures { result ≡ line_eq (lines.Drained alias.now) line.now }
{
    match line {
        Rest::Drained { alias: other } => *alias == *other,
        _ => false,
    }
}

fn line_eq(x: &Rest, y: &Rest) -> bool
    ensures { result ≡ line_eq x.now y.now }
{
    match x {
        Rest::Promoted { alias, term, left } => is_promoted(alias, *term, left.as_slice(), y),
        Rest::Refused { refusal, undone } => is_refused(refusal, undone, y),
        Rest::Joined { alias, to } => is_joined(alias, to, y),
        Rest::Left { alias, left } => is_left(alias, left, y),
        Rest::Drained { alias } => is_drained(alias, y),
    }
}

fn pairs_lines(xs: &[Rest], ys: &[Rest]) -> bool
    ensures { result ≡ list_all (λ p. line_eq p.0 p.1) (zip xs.now ys.now) }
{
    xs.iter().zip(ys).all(|(x, y)| line_eq(x, y))
}

/// Whether the two are the same lines. Logs are compared by their transactions. It takes no memory.
#[tactic(auto, using(crate::proofs::SameLemmas::lines_uneven))]
pub fn lines_eq(xs: &[Rest], ys: &[Rest]) -> bool
    ensures { result ≡ lines_eq xs.now ys.now }
{
    if xs.len() != ys.len() {
        return false;
    }
    pairs_lines(xs, ys)
}
