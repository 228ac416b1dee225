ghost use Rattle.std.specs.Prelude.{◌≡◌, ◌++◌, OnOk};
ghost use Rattle.tablet_text.specs.Refusals.{lock_taken_text, lock_lost_text, no_such_tablet_text, not_eligible_text, expected_primary_text, both_given_text, reparent_pending_text, unreachable_text, no_candidate_text, lacks_text, not_caught_up_text, stale_term_text, not_revoked_text, ackers_text, cannot_establish_text, split_brain_text, cross_cell_text, not_told_text, unacked_text, not_acknowledged_text, errant_refusal_text, not_promoted_text, out_of_memory_text, refusal_text, primary_or_none, has_text};

use crate::number::write_number;
use crate::reason::{write_all_not_stopped, write_all_rejected, write_bar};
use crate::stand::{write_has_seen, write_in_term, write_since, write_stands, write_why};
use gtid_sets::{GtidSet, write_set};
use shard_base::OutOfMemory;
use shard_calls::{Bar, NotStopped, Refusal, Rejected, Unacked, Why};
use shard_names::Alias;

#[tactic(auto, unfolding(crate::specs::Refusals::lock_taken_text))]
fn write_lock_taken(term: u64, by: &[u8], into: &mut Vec<u8>) -> Result<(), OutOfMemory>
    ensures { OnOk result (into.new.items ≡ into.old.items ++ lock_taken_text term by.now) }
{
    into.extend_from_slice(b"1 LockTaken: term ")?;
    write_number(term, into)?;
    into.extend_from_slice(b" by ")?;
    into.extend_from_slice(by)?;
    Ok(())
}

#[tactic(auto, unfolding(crate::specs::Refusals::lock_lost_text))]
fn write_lock_lost(term: u64, into: &mut Vec<u8>) -> Result<(), OutOfMemory>
    ensures { OnOk result (into.new.items ≡ into.old.items ++ lock_lost_text term) }
{
    into.extend_from_slice(b"2 LockLost: topology is at term ")?;
    write_number(term, into)
}

#[tactic(auto, unfolding(crate::specs::Refusals::no_such_tablet_text))]
fn write_no_such_tablet(alias: &Alias, into: &mut Vec<u8>) -> Result<(), OutOfMemory>
    ensures { OnOk result (into.new.items ≡ into.old.items ++ no_such_tablet_text alias.now) }
{
    into.extend_from_slice(b"3 NoSuchTablet: ")?;
    alias.write(into)
}

#[tactic(auto, unfolding(crate::specs::Refusals::not_eligible_text))]
fn write_not_eligible(alias: &Alias, bar: &Bar, into: &mut Vec<u8>) -> Result<(), OutOfMemory>
    ensures { OnOk result (into.new.items ≡ into.old.items ++ not_eligible_text alias.now bar.now) }
{
    into.extend_from_slice(b"4 NotEligible: ")?;
    alias.write(into)?;
    into.extend_from_slice(b" ")?;
    write_bar(bar, into)
}

/// Appends the recorded primary.
fn write_primary_or_none(recorded: &Option<Alias>, into: &mut Vec<u8>) -> Result<(), OutOfMemory>
    ensures { OnOk result (into.new.items ≡ into.old.items ++ primary_or_none recorded.now) }
{
    match recorded {
        None => {
            into.extend_from_slice(b"none")?;
            Ok(())
        }
        Some(alias) => alias.write(into),
    }
}

#[tactic(auto, unfolding(crate::specs::Refusals::expected_primary_text))]
fn write_expected_primary(recorded: &Option<Alias>, into: &mut Vec<u8>) -> Result<(), OutOfMemory>
    ensures { OnOk result (into.new.items ≡ into.old.items ++ expected_primary_text recorded.now) }
{
    into.extend_from_slice(b"5 ExpectedPrimary: ")?;
    write_primary_or_none(recorded, into)
}

#[tactic(auto, unfolding(crate::specs::Refusals::both_given_text))]
fn write_both_given(into: &mut Vec<u8>) -> Result<(), OutOfMemory>
    ensures { OnOk result (into.new.items ≡ into.old.items ++ both_given_text) }
{
    into.extend_from_slice(b"6 BothGiven")?;
    Ok(())
}

#[tactic(auto, unfolding(crate::specs::Refusals::reparent_pending_text))]
fn write_reparent_pending(alias: &Alias, term: u64, into: &mut Vec<u8>) -> Result<(), OutOfMemory>
    ensures { OnOk result (into.new.items ≡ into.old.items ++ reparent_pending_text alias.now term) }
{
    into.extend_from_slice(b"7 ReparentPending: ")?;
    write_in_term(alias, term, into)
}

#[tactic(auto, unfolding(crate::specs::Refusals::unreachable_text))]
fn write_unreachable(alias: &Alias, why: &Why, into: &mut Vec<u8>) -> Result<(), OutOfMemory>
    ensures { OnOk result (into.new.items ≡ into.old.items ++ unreachable_text alias.now why.now) }
{
    into.extend_from_slice(b"8 Unreachable: ")?;
    alias.write(into)?;
    into.extend_from_slice(b" ")?;
    write_why(why, into)
}

#[tactic(auto, unfolding(crate::specs::Refusals::no_candidate_text))]
fn write_no_candidate(rejected: &[Rejected], into: &mut Vec<u8>) -> Result<(), OutOfMemory>
    ensures { OnOk result (into.new.items ≡ into.old.items ++ no_candidate_text rejected.now) }
{
    into.extend_from_slice(b"9 NoCandidate: ")?;
    write_all_rejected(rejected, into)
}

/// Appends what a tablet lacks.
#[tactic(auto, unfolding(crate::specs::Refusals::lacks_text))]
fn write_lacks(alias: &Alias, missing: &GtidSet, into: &mut Vec<u8>) -> Result<(), OutOfMemory>
    ensures { OnOk result (into.new.items ≡ into.old.items ++ lacks_text alias.now missing.now) }
{
    alias.write(into)?;
    into.extend_from_slice(b" lacks ")?;
    write_set(missing, into)
}

#[tactic(auto, unfolding(crate::specs::Refusals::not_caught_up_text))]
fn write_not_caught_up(
    alias: &Alias,
    missing: &GtidSet,
    since: u64,
    now: u64,
    into: &mut Vec<u8>,
) -> Result<(), OutOfMemory>
    ensures { OnOk result (into.new.items ≡ into.old.items ++ not_caught_up_text alias.now missing.now since now) }
{
    into.extend_from_slice(b"10 NotCaughtUp: ")?;
    write_lacks(alias, missing, into)?;
    into.extend_from_slice(b" ")?;
    write_since(since, now, into)
}

#[tactic(auto, unfolding(crate::specs::Refusals::stale_term_text))]
fn write_stale_term(alias: &Alias, seen: u64, into: &mut Vec<u8>) -> Result<(), OutOfMemory>
    ensures { OnOk result (into.new.items ≡ into.old.items ++ stale_term_text alias.now seen) }
{
    into.extend_from_slice(b"11 StaleTerm: ")?;
    alias.write(into)?;
    into.extend_from_slice(b" ")?;
    write_has_seen(seen, into)
}

#[tactic(auto, unfolding(crate::specs::Refusals::not_revoked_text))]
fn write_not_revoked(
    alias: &Alias,
    unreached: &[NotStopped],
    into: &mut Vec<u8>,
) -> Result<(), OutOfMemory>
    ensures { OnOk result (into.new.items ≡ into.old.items ++ not_revoked_text alias.now unreached.now) }
{
    into.extend_from_slice(b"12 NotRevoked: ")?;
    alias.write(into)?;
    into.extend_from_slice(b" may still commit; unreached ")?;
    write_all_not_stopped(unreached, into)
}

/// Appends how many of the tablets that can acknowledge a primary's writes there are, of those that it needs.
#[tactic(auto, unfolding(crate::specs::Refusals::ackers_text))]
fn write_ackers(have: u32, need: u32, into: &mut Vec<u8>) -> Result<(), OutOfMemory>
    ensures { OnOk result (into.new.items ≡ into.old.items ++ ackers_text have need) }
{
    write_number(u64::from(have), into)?;
    into.extend_from_slice(b" of ")?;
    write_number(u64::from(need), into)?;
    into.extend_from_slice(b" ackers")?;
    Ok(())
}

#[tactic(auto, unfolding(crate::specs::Refusals::cannot_establish_text))]
fn write_cannot_establish(
    alias: &Alias,
    have: u32,
    need: u32,
    into: &mut Vec<u8>,
) -> Result<(), OutOfMemory>
    ensures { OnOk result (into.new.items ≡ into.old.items ++ cannot_establish_text alias.now have need) }
{
    into.extend_from_slice(b"13 CannotEstablish: ")?;
    alias.write(into)?;
    into.extend_from_slice(b" has ")?;
    write_ackers(have, need, into)
}

/// Appends what a tablet has.
#[tactic(auto, unfolding(crate::specs::Refusals::has_text))]
fn write_has(alias: &Alias, position: &GtidSet, into: &mut Vec<u8>) -> Result<(), OutOfMemory>
    ensures { OnOk result (into.new.items ≡ into.old.items ++ has_text alias.now position.now) }
{
    alias.write(into)?;
    into.extend_from_slice(b" has ")?;
    write_set(position, into)
}

#[tactic(auto, unfolding(crate::specs::Refusals::split_brain_text))]
fn write_split_brain(
    a: &Alias,
    has_a: &GtidSet,
    b: &Alias,
    has_b: &GtidSet,
    into: &mut Vec<u8>,
) -> Result<(), OutOfMemory>
    ensures { OnOk result (into.new.items ≡ into.old.items ++ split_brain_text a.now has_a.now b.now has_b.now) }
{
    into.extend_from_slice(b"14 SplitBrain: ")?;
    write_has(a, has_a, into)?;
    into.extend_from_slice(b" and ")?;
    write_has(b, has_b, into)
}

#[tactic(auto, unfolding(crate::specs::Refusals::cross_cell_text))]
fn write_cross_cell(alias: &Alias, into: &mut Vec<u8>) -> Result<(), OutOfMemory>
    ensures { OnOk result (into.new.items ≡ into.old.items ++ cross_cell_text alias.now) }
{
    into.extend_from_slice(b"15 CrossCell: ")?;
    alias.write(into)?;
    into.extend_from_slice(b" is in ")?;
    into.extend_from_slice(alias.cell.as_slice())?;
    Ok(())
}

/// Appends since when and until when too few tablets had acknowledged a promotion.
#[tactic(auto, unfolding(crate::specs::Refusals::not_told_text))]
fn write_not_told(
    alias: &Alias,
    since: u64,
    now: u64,
    into: &mut Vec<u8>,
) -> Result<(), OutOfMemory>
    ensures { OnOk result (into.new.items ≡ into.old.items ++ not_told_text alias.now since now) }
{
    alias.write(into)?;
    into.extend_from_slice(b" ")?;
    write_since(since, now, into)
}

/// Appends what is known of a tablet whose promotion does not count as committed.
fn write_unacked(alias: &Alias, cause: &Unacked, into: &mut Vec<u8>) -> Result<(), OutOfMemory>
    ensures { OnOk result (into.new.items ≡ into.old.items ++ unacked_text alias.now cause.now) }
{
    match cause {
        Unacked::NotTold { since, now } => write_not_told(alias, *since, *now, into),
        Unacked::Kept { stand } => write_stands(alias, stand, into),
    }
}

#[tactic(auto, unfolding(crate::specs::Refusals::not_acknowledged_text))]
fn write_not_acknowledged(
    alias: &Alias,
    cause: &Unacked,
    into: &mut Vec<u8>,
) -> Result<(), OutOfMemory>
    ensures { OnOk result (into.new.items ≡ into.old.items ++ not_acknowledged_text alias.now cause.now) }
{
    into.extend_from_slice(b"17 NotAcknowledged: ")?;
    write_unacked(alias, cause, into)
}

#[tactic(auto, unfolding(crate::specs::Refusals::errant_refusal_text))]
fn write_errant_refusal(
    alias: &Alias,
    extra: &GtidSet,
    into: &mut Vec<u8>,
) -> Result<(), OutOfMemory>
    ensures { OnOk result (into.new.items ≡ into.old.items ++ errant_refusal_text alias.now extra.now) }
{
    into.extend_from_slice(b"18 Errant: ")?;
    write_has(alias, extra, into)
}

#[tactic(auto, unfolding(crate::specs::Refusals::not_promoted_text))]
fn write_not_promoted(alias: &Alias, newest: u64, into: &mut Vec<u8>) -> Result<(), OutOfMemory>
    ensures { OnOk result (into.new.items ≡ into.old.items ++ not_promoted_text alias.now newest) }
{
    into.extend_from_slice(b"19 NotPromoted: ")?;
    alias.write(into)?;
    into.extend_from_slice(b" has newest row ")?;
    write_number(newest, into)
}

#[tactic(auto, unfolding(crate::specs::Refusals::out_of_memory_text))]
fn write_out_of_memory(into: &mut Vec<u8>) -> Result<(), OutOfMemory>
    ensures { OnOk result (into.new.items ≡ into.old.items ++ out_of_memory_text) }
{
    into.extend_from_slice(b"20 OutOfMemory")?;
    Ok(())
}

/// Appends the number and the text of a refusal.
pub fn write_refusal(refusal: &Refusal, into: &mut Vec<u8>) -> Result<(), OutOfMemory>
    ensures { OnOk result (into.new.items ≡ into.old.items ++ refusal_text refusal.now) }
{
    match refusal {
        Refusal::LockTaken { term, actor } => write_lock_taken(*term, actor.as_slice(), into),
        Refusal::LockLost { term } => write_lock_lost(*term, into),
        Refusal::NoSuchTablet { alias } => write_no_such_tablet(alias, into),
        Refusal::NotEligible { alias, bar } => write_not_eligible(alias, bar, into),
        Refusal::ExpectedPrimary { recorded } => write_expected_primary(recorded, into),
        Refusal::BothGiven => write_both_given(into),
        Refusal::ReparentPending { alias, term } => write_reparent_pending(alias, *term, into),
        Refusal::Unreachable { alias, why } => write_unreachable(alias, why, into),
        Refusal::NoCandidate { reasons } => write_no_candidate(reasons.as_slice(), into),
        Refusal::NotCaughtUp {
            alias,
            missing,
            since,
            now,
        } => { write_not_caught_up(alias, missing, *since, *now, into) }
        Refusal::StaleTerm { alias, seen } => write_stale_term(alias, *seen, into),
        Refusal::NotRevoked { alias, unreached } => {
            write_not_revoked(alias, unreached.as_slice(), into)
        }
        Refusal::CannotEstablish { alias, have, need } => {
            write_cannot_establish(alias, *have, *need, into)
        }
        Refusal::SplitBrain { a, has_a, b, has_b } => write_split_brain(a, has_a, b, has_b, into),
        Refusal::CrossCell { alias } => write_cross_cell(alias, into),
        Refusal::NotAcknowledged { alias, cause } => write_not_acknowledged(alias, cause, into),
        Refusal::Errant { alias, extra } => write_errant_refusal(alias, extra, into),
        Refusal::NotPromoted { alias, newest } => write_not_promoted(alias, *newest, into),
        Refusal::OutOfMemory => write_out_of_memory(into),
    }
}
