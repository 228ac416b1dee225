//! The one table of refusals: by what a call came to, by what the topology said, and at once.

ghost use Rattle.std.specs.Prelude.{◌≡◌, IfOk};
ghost use Rattle.shard_calls.specs.declared.answer.Answer.TheVariants as says;
ghost use Rattle.shard_calls.specs.declared.refusal.Refusal.TheVariants as refusals;
ghost use Rattle.shard_calls.specs.Refusals.{is_of_promotion, refusal_to, refusal_after, refusal_by_demoted, is_other_than, recorded_alias, refusal_by_record, refusal_by_marks, refusal_by_seen, refusal_of_undeclared, is_barred, refusal_of_barred, refusal_of_planned, refusal_of_ignored, refusal_of_first, refusal_of_emergency, is_in_cell_of, refusal_of_crossing, refusal_by_topology, term_of_promoted};
ghost use Rattle.shard_names.specs.Tablets.{is_among, is_declared, tablet_of};
ghost use Rattle.std.specs.Option.{option_copied};

use durability::is_eligible;
use shard_base::OutOfMemory;
use shard_calls::{
    Answer, Asked, Bar, Deed, EmergencyOptions, Group, Kind, Outcome, PlannedOptions, Refusal,
    Seen, Stand, Unacked,
};
use shard_names::{Alias, Tablet};
use topo_lock::{Intent, LockTaken, Record};

/// Whether it is a call by which a tablet is to be, or to have become, the primary.
pub fn is_of_promotion(kind: Kind) -> bool
    ensures { result ≡ is_of_promotion kind }
{
    match kind {
        Kind::Promote => true,
        Kind::WaitTold => true,
        Kind::Status => false,
        Kind::Stop => false,
        Kind::Demote => false,
        Kind::SetSource => false,
        Kind::Feed => false,
        Kind::WaitFor => false,
    }
}

/// Why a tablet that stands so and was to be the primary is not acknowledged.
fn kept(asked: &Asked, stand: &Stand) -> Option<Refusal>
    ensures { result ≡ refusal_to asked.now (says.Kept stand.now) }
{
    if !is_of_promotion(asked.kind) {
        return None;
    }
    let cause = Unacked::Kept {
        stand: stand.standing(),
    };
    Some(Refusal::NotAcknowledged {
        alias: asked.alias,
        cause,
    })
}

fn refusal_to(asked: &Asked, answer: &Answer) -> Result<Option<Refusal>, OutOfMemory>
    ensures { IfOk result (λ refusal. refusal ≡ refusal_to asked.now answer.now) }
{
    let alias = asked.alias;
    match answer {
        Answer::NotTold => {
            let cause = Unacked::NotTold {
                since: asked.sent,
                now: asked.arrived,
            };
            Ok(Some(Refusal::NotAcknowledged { alias, cause }))
        }
        Answer::Kept { stand } => Ok(kept(asked, stand)),
        Answer::StaleTerm { seen } => Ok(Some(Refusal::StaleTerm { alias, seen: *seen })),
        Answer::NotCaughtUp { missing } => {
            let missing = missing.copy()?;
            Ok(Some(Refusal::NotCaughtUp {
                alias,
                missing,
                since: asked.sent,
                now: asked.arrived,
            }))
        }
        Answer::Errant { extra } => {
            let extra = extra.copy()?;
            Ok(Some(Refusal::Errant { alias, extra }))
        }
        Answer::Status { .. } => Ok(None),
        Answer::Stopped { .. } => Ok(None),
        Answer::Demoted { .. } => Ok(None),
        Answer::Promoted { .. } => Ok(None),
        Answer::Joined => Ok(None),
        Answer::Feeding => Ok(None),
        Answer::Holds => Ok(None),
        Answer::Told => Ok(None),
        Answer::PromisedAhead { .. } => Ok(None),
        Answer::NotStanding { .. } => Ok(None),
    }
}

/// Why a command that needs the call is refused by what it came to, if it is.
pub fn refusal_after(asked: &Asked, outcome: &Outcome) -> Result<Option<Refusal>, OutOfMemory>
    ensures { IfOk result (λ refusal. refusal ≡ refusal_after asked.now outcome.now) }
{
    match outcome {
        Outcome::Answered { answer } => refusal_to(asked, answer),
        Outcome::GivenUp { why } => Ok(Some(Refusal::Unreachable {
            alias: asked.alias,
            why: *why,
        })),
    }
}

fn pending(intent: &Intent) -> Refusal
    ensures { result ≡ refusals.ReparentPending intent.now.alias intent.now.term }
{
    Refusal::ReparentPending {
        alias: intent.alias,
        term: intent.term,
    }
}

/// Why a command is refused by what the tablet of the last intent answers to its Demote, if it is. It takes no memory.
pub fn refusal_by_demoted(intent: &Intent, answer: &Answer) -> Option<Refusal>
    ensures { result ≡ refusal_by_demoted intent.now answer.now }
{
    match answer {
        Answer::Demoted { newest, .. } => {
            if *newest < intent.term {
                return Some(pending(intent));
            }
            None
        }
        Answer::NotStanding { .. } => Some(pending(intent)),
        _ => None,
    }
}

// ---- by what was read

/// The recorded tablet.
pub fn recorded_alias(recorded: &Option<Record>) -> Option<Alias>
    ensures { result ≡ recorded_alias recorded.now }
{
    match recorded {
        Some(record) => Some(record.alias),
        None => None,
    }
}

fn is_other_than(recorded: &Option<Alias>, alias: &Alias) -> bool
    ensures { result ≡ is_other_than recorded.now alias.now }
{
    match recorded {
        Some(recorded) => *recorded != *alias,
        None => true,
    }
}

fn refusal_by_record(expected: &Option<Alias>, recorded: &Option<Record>) -> Option<Refusal>
    ensures { result ≡ refusal_by_record expected.now recorded.now }
{
    let Some(expected) = expected else {
        return None;
    };
    let recorded = recorded_alias(recorded);
    if !is_other_than(&recorded, expected) {
        return None;
    }
    Some(Refusal::ExpectedPrimary { recorded })
}

/// Whether the alias is among these.
pub fn is_among(aliases: &[Alias], alias: &Alias) -> bool
    ensures { result ≡ is_among aliases.now alias.now }
{
    aliases.iter().any(|other| *alias == *other)
}

fn refusal_by_marks(new_primary: &Option<Alias>, drained: &[Alias]) -> Option<Refusal>
    ensures { result ≡ refusal_by_marks new_primary.now drained.now }
{
    let Some(alias) = new_primary else {
        return None;
    };
    if !is_among(drained, alias) {
        return None;
    }
    Some(Refusal::NotEligible {
        alias: *alias,
        bar: Bar::Drained,
    })
}

/// Why a command is refused by what it read, where it expects this primary and is to promote that tablet. It takes no memory.
pub fn refusal_by_seen(
    expected: &Option<Alias>,
    new_primary: &Option<Alias>,
    seen: &Seen,
) -> Option<Refusal>
    ensures { result ≡ refusal_by_seen expected.now new_primary.now seen.now }
{
    if let Some(refusal) = refusal_by_record(expected, &seen.recorded) {
        return Some(refusal);
    }
    refusal_by_marks(new_primary, seen.drained.as_slice())
}

// ---- at once

/// The tablet of this alias.
pub(crate) fn tablet_of<'a>(tablets: &'a [Tablet], alias: &Alias) -> Option<&'a Tablet>
    ensures { option_copied result ≡ tablet_of tablets.now alias.now }
{
    tablets.iter().find(|tablet| tablet.alias == *alias)
}

/// Why a command that was given this tablet is refused where it is not declared. It takes no memory.
pub fn refusal_of_undeclared(group: &Group, alias: &Option<Alias>) -> Option<Refusal>
    ensures { result ≡ refusal_of_undeclared group.now alias.now }
{
    let Some(alias) = alias else {
        return None;
    };
    if tablet_of(group.tablets.as_slice(), alias).is_some() {
        return None;
    }
    Some(Refusal::NoSuchTablet { alias: *alias })
}

fn is_barred(group: &Group, alias: &Alias) -> bool
    ensures { result ≡ is_barred group.now (tablet_of group.now.tablets alias.now) }
{
    match tablet_of(group.tablets.as_slice(), alias) {
        Some(tablet) => !is_eligible(&group.policy, tablet),
        None => false,
    }
}

fn refusal_of_barred(group: &Group, alias: &Option<Alias>) -> Option<Refusal>
    ensures { result ≡ refusal_of_barred group.now alias.now }
{
    let Some(alias) = alias else {
        return None;
    };
    if !is_barred(group, alias) {
        return None;
    }
    Some(Refusal::NotEligible {
        alias: *alias,
        bar: Bar::MustNot,
    })
}

/// Why a `PlannedReparentShard` with these options is refused at once, if it is. It takes no memory.
pub fn refusal_of_planned(group: &Group, options: &PlannedOptions) -> Option<Refusal>
    ensures { result ≡ refusal_of_planned group.now options.now }
{
    if options.new_primary.is_some() && options.avoid.is_some() {
        return Some(Refusal::BothGiven);
    }
    if let Some(refusal) = refusal_of_undeclared(group, &options.new_primary) {
        return Some(refusal);
    }
    if let Some(refusal) = refusal_of_undeclared(group, &options.avoid) {
        return Some(refusal);
    }
    if let Some(refusal) = refusal_of_undeclared(group, &options.expected) {
        return Some(refusal);
    }
    refusal_of_barred(group, &options.new_primary)
}

fn refusal_of_ignored(ignored: &[Alias], alias: &Option<Alias>) -> Option<Refusal>
    ensures { result ≡ refusal_of_ignored ignored.now alias.now }
{
    let Some(alias) = alias else {
        return None;
    };
    if !is_among(ignored, alias) {
        return None;
    }
    Some(Refusal::NotEligible {
        alias: *alias,
        bar: Bar::Ignored,
    })
}

/// That the first of these that is not declared is not.
fn refusal_of_first(group: &Group, aliases: &[Alias]) -> Option<Refusal>
    ensures { result ≡ refusal_of_first group.now aliases.now }
{
    let mut left = aliases;
    while let Some((alias, more)) = left.split_first() {
        if let Some(refusal) = refusal_of_undeclared(group, &Some(*alias)) {
            return Some(refusal);
        }
        left = more;
    }
    None
}

/// Why an `EmergencyReparentShard` with these options is refused at once, if it is. It takes no memory.
pub fn refusal_of_emergency(group: &Group, options: &EmergencyOptions) -> Option<Refusal>
    ensures { result ≡ refusal_of_emergency group.now options.now }
{
    if let Some(refusal) = refusal_of_undeclared(group, &options.new_primary) {
        return Some(refusal);
    }
    if let Some(refusal) = refusal_of_first(group, options.ignored.as_slice()) {
        return Some(refusal);
    }
    if let Some(refusal) = refusal_of_undeclared(group, &options.expected) {
        return Some(refusal);
    }
    if let Some(refusal) = refusal_of_barred(group, &options.new_primary) {
        return Some(refusal);
    }
    refusal_of_ignored(options.ignored.as_slice(), &options.new_primary)
}

/// Whether the aliases are of one cell.
pub fn is_in_cell_of(a: &Alias, b: &Alias) -> bool
    ensures { result ≡ is_in_cell_of a.now b.now }
{
    a.cell == b.cell
}

/// Why a tablet may not follow a primary of another cell, if it may not. It takes no memory.
pub fn refusal_of_crossing(allowed: bool, old: &Alias, alias: &Alias) -> Option<Refusal>
    ensures { result ≡ refusal_of_crossing allowed old.now alias.now }
{
    if allowed || is_in_cell_of(old, alias) {
        return None;
    }
    Some(Refusal::CrossCell { alias: *alias })
}

// ---- what the topology refused

fn lock_taken(held: &LockTaken) -> Refusal
    ensures { result ≡ refusals.LockTaken held.now.term held.now.actor }
{
    Refusal::LockTaken {
        term: held.term,
        actor: held.actor,
    }
}

/// Why a command is refused by what the topology replied to it, if it is. It takes no memory.
pub fn refusal_by_topology(deed: &Deed) -> Option<Refusal>
    ensures { result ≡ refusal_by_topology deed.now }
{
    match deed {
        Deed::Took { reply: Err(held) } => Some(lock_taken(held)),
        Deed::Read { reply: Err(term) } => Some(Refusal::LockLost { term: *term }),
        Deed::Intended {
            reply: Err(term),
            ..
        } => Some(Refusal::LockLost { term: *term }),
        Deed::Recorded {
            reply: Err(term),
            ..
        } => Some(Refusal::LockLost { term: *term }),
        Deed::Drained {
            reply: Err(term),
            ..
        } => Some(Refusal::LockLost { term: *term }),
        _ => None,
    }
}

// ---- where a promotion by other hands is to be recorded

/// The term of the last intent, if the tablet stands as the primary of it, or else the refusal. The newest row in the tablet's log is of the
/// term `newest`. It takes no memory.
pub fn term_of_promoted(
    alias: &Alias,
    newest: u64,
    intent: &Option<Intent>,
    stand: &Stand,
) -> Result<u64, Refusal>
    ensures { result ≡ term_of_promoted alias.now newest intent.now stand.now }
{
    match intent {
        Some(intent) if stand.is_primary_of(intent.term) => Ok(intent.term),
        _ => Err(Refusal::NotPromoted {
            alias: *alias,
            newest,
        }),
    }
}
