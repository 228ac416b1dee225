//! The causes of the answers of writes, and of commands that show what stood when they began.

ghost use Rattle.std.specs.Prelude.{◌≡◌, ◌&&◌, ◌==◌, length, map};
ghost use Rattle.std.specs.List.{list_any, list_all, zip};
ghost use Rattle.shard_calls.specs.World.{World};
ghost use Rattle.shard_calls.specs.Causes.{wrote_this, is_told_act, says_not_primary, showed, row_of, has_write_cause, has_show_cause, has_shard_cause, has_tablets_cause};
ghost use Rattle.shard_calls.specs.Same.{rows_eq};
ghost use Rattle.spans.specs.Lists.{same_row};
ghost use Rattle.causes.specs.Writing.{stands_for, write_cause};

use crate::planned::has_no_other_cause;
use analysis::row_of;
use gtid_sets::{Gtid, GtidSet};
use shard_calls::{
    Act, CommandAnswer, CommandState, Group, Seen, Shown, Standing, TabletRow, Wrote,
};
use shard_names::{Alias, ShardName, Tablet};
use spans::{position_eq, record_or_none_eq, same_row, shard_name_eq, standing_eq};

// ---- of a write

fn wrote_this(wrote: &Option<Wrote>, gtid: &Gtid, alias: &Alias, term: u64) -> bool
    ensures { result ≡ wrote_this wrote.now gtid.now alias.now term }
{
    match wrote {
        Some(wrote) => wrote.gtid == *gtid && wrote.alias == *alias && wrote.term == term,
        None => false,
    }
}

fn is_told_act(act: &Act) -> bool
    ensures { result ≡ is_told_act act.now }
{
    match act {
        Act::Told { committed } => *committed,
        _ => false,
    }
}

fn was_told(state: &CommandState) -> bool
    ensures { result ≡ list_any is_told_act state.now.acts }
{
    let acts = state.acts.as_slice();
    acts.iter().any(|act| is_told_act(act))
}

fn says_not_primary(alias: &Alias, stand: &Standing, act: &Act) -> bool
    ensures { result ≡ says_not_primary alias.now stand.now act.now }
{
    match act {
        Act::Wrote {
            alias: other,
            reply: Err(found),
        } => *other == *alias && standing_eq(found, stand),
        _ => false,
    }
}

fn was_not_primary(alias: &Alias, stand: &Standing, state: &CommandState) -> bool
    ensures { result ≡ list_any (says_not_primary alias.now stand.now) state.now.acts }
{
    let acts = state.acts.as_slice();
    acts.iter().any(|act| says_not_primary(alias, stand, act))
}

/// Whether a write to this tablet, or else to the recorded primary, may end with the answer. `is_primary` says whether the tablet that an
/// `Unknown` names is still the primary of the term that it names. It takes no memory.
#[tactic(auto, using(crate::proofs::WritingLemmas::cause_of_write))]
pub fn has_write_cause(
    to: &Option<Alias>,
    state: &CommandState,
    answer: &CommandAnswer,
    is_primary: bool,
) -> bool
    ensures value { result ≡ write_cause is_primary to.now state.now answer.now }
    ensures cause { (w : World) → is_primary ≡ stands_for w answer.now → result ≡ has_write_cause w to.now state.now answer.now }
{
    write_cause(to, state, answer, is_primary)
}

fn write_cause(
    to: &Option<Alias>,
    state: &CommandState,
    answer: &CommandAnswer,
    is_primary: bool,
) -> bool
    ensures { result ≡ write_cause is_primary to.now state.now answer.now }
{
    match answer {
        CommandAnswer::Committed { gtid, alias, term } => {
            wrote_this(&state.wrote, gtid, alias, *term) && was_told(state)
        }
        CommandAnswer::NotPrimary { alias, stand } => was_not_primary(alias, stand, state),
        CommandAnswer::NoPrimaryRecorded => {
            to.is_none() && state.opening.seen.recorded.is_none()
        }
        CommandAnswer::Unknown { gtid, alias, term } => {
            wrote_this(&state.wrote, gtid, alias, *term) && !was_told(state) && !is_primary
        }
        CommandAnswer::Refused { refusal, undone } => has_no_other_cause(refusal, undone),
        _ => false,
    }
}

// ---- of what was shown

fn showed(shown: &Option<Shown>, stand: &Standing, position: &GtidSet) -> bool
    ensures { result ≡ showed shown.now stand.now position.now }
{
    match shown {
        Some(shown) => {
            standing_eq(&shown.stand.standing(), stand) && position_eq(&shown.position, position)
        }
        None => false,
    }
}

/// Whether a `show` of this tablet may end with the answer. It takes no memory.
pub fn has_show_cause(shown: &Alias, state: &CommandState, answer: &CommandAnswer) -> bool
    ensures { result ≡ has_show_cause shown.now state.now answer.now }
{
    match answer {
        CommandAnswer::Shown {
            alias,
            stand,
            position,
        } => *shown == *alias && showed(&state.opening.shown, stand, position),
        CommandAnswer::Refused { refusal, undone } => has_no_other_cause(refusal, undone),
        _ => false,
    }
}

/// Whether a `GetShard` of this shard may end with the answer. It takes no memory.
pub fn has_shard_cause(shard: &ShardName, state: &CommandState, answer: &CommandAnswer) -> bool
    ensures { result ≡ has_shard_cause shard.now state.now answer.now }
{
    match answer {
        CommandAnswer::Shard {
            shard: other,
            recorded,
        } => {
            shard_name_eq(other, shard) && record_or_none_eq(recorded, &state.opening.seen.recorded)
        }
        CommandAnswer::Refused { refusal, undone } => has_no_other_cause(refusal, undone),
        _ => false,
    }
}

fn is_row(seen: &Seen, row: &TabletRow, tablet: &Tablet) -> bool
    ensures { result ≡ same_row row.now (row_of seen.now tablet.now) }
{
    same_row(row, &row_of(seen, tablet))
}

fn pairs_rows(seen: &Seen, rows: &[TabletRow], tablets: &[Tablet]) -> bool
    ensures { result ≡ list_all (λ p. same_row p.0 (row_of seen.now p.1)) (zip rows.now tablets.now) }
{
    rows.iter()
        .zip(tablets)
        .all(|(row, tablet)| is_row(seen, row, tablet))
}

#[tactic(auto, using(crate::proofs::RowLemmas::rows_uneven))]
fn are_rows(seen: &Seen, rows: &[TabletRow], tablets: &[Tablet]) -> bool
    ensures { result ≡ rows_eq rows.now (map (row_of seen.now) tablets.now) }
{
    if rows.len() != tablets.len() {
        return false;
    }
    pairs_rows(seen, rows, tablets)
}

/// Whether a `GetTablets` may end with the answer. It takes no memory.
pub fn has_tablets_cause(group: &Group, state: &CommandState, answer: &CommandAnswer) -> bool
    ensures { result ≡ has_tablets_cause group.now state.now answer.now }
{
    match answer {
        CommandAnswer::Tablets { rows } => {
            are_rows(
                &state.opening.seen,
                rows.as_slice(),
                group.tablets.as_slice(),
            )
        }
        CommandAnswer::Refused { refusal, undone } => has_no_other_cause(refusal, undone),
        _ => false,
    }
}
