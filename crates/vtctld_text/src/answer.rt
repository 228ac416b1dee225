ghost use Rattle.std.specs.Prelude.{◌≡◌, ◌++◌, ◌∷◌, [], OnOk, Some, if◌then◌else◌};
ghost use Rattle.std.specs.Option.{option_copied};
ghost use Rattle.std.specs.Str.{bytes_eq};
ghost use Rattle.shard_calls.specs.World.{main_name};
ghost use Rattle.tablet_text.specs.Refusals.{is_out_of_memory};
ghost use Rattle.tablet_text.specs.Stands.{line, not_joined_text};
ghost use Rattle.tablet_text.specs.Json.{shard_json, tablets_json};
ghost use Rattle.vtctld_text.specs.Texts.{prefix_text, planned_text, emergency_text, get_shard_text, get_tablets_text, external_text, show_text, command_text, begin_text, head_text, promoted_text, nothing_to_do_text, recorded_text, undo_text, refused_text, written_text, committed_text, not_primary_text, unknown_text, shown_text, said_text, is_json, says_text, lead_text, first_line, left_lines, further_lines, answer_text, is_refused};

use crate::begun::Begun;
use crate::watch::{has_setback, write_first_finding, write_watch};
use gtid_sets::{Gtid, GtidSet, write_position};
use shard_base::OutOfMemory;
use shard_calls::{Command, CommandAnswer, NotJoined, Refusal, Standing};
use shard_names::{Alias, ShardName};
use tablet_text::{
    write_in_term, write_not_joined, write_number, write_refusal, write_shard, write_standing,
    write_stands, write_tablets,
};

fn is_main(actor: &[u8]) -> bool
    ensures { result ≡ bytes_eq actor.now main_name }
{
    actor == b"main".as_slice()
}

/// Appends the actor who gave a command, unless it is `main`.
#[tactic(auto, unfolding(crate::specs::Texts::prefix_text))]
fn write_prefix(actor: &[u8], into: &mut Vec<u8>) -> Result<(), OutOfMemory>
    ensures { OnOk result (into.new.items ≡ into.old.items ++ prefix_text actor.now) }
{
    if is_main(actor) {
        return Ok(());
    }
    into.extend_from_slice(b"[")?;
    into.extend_from_slice(actor)?;
    into.extend_from_slice(b"] ")?;
    Ok(())
}

#[tactic(auto, unfolding(crate::specs::Texts::planned_text))]
fn write_planned(shard: &ShardName, into: &mut Vec<u8>) -> Result<(), OutOfMemory>
    ensures { OnOk result (into.new.items ≡ into.old.items ++ planned_text shard.now) }
{
    into.extend_from_slice(b"PlannedReparentShard ")?;
    shard.write(into)
}

#[tactic(auto, unfolding(crate::specs::Texts::emergency_text))]
fn write_emergency(shard: &ShardName, into: &mut Vec<u8>) -> Result<(), OutOfMemory>
    ensures { OnOk result (into.new.items ≡ into.old.items ++ emergency_text shard.now) }
{
    into.extend_from_slice(b"EmergencyReparentShard ")?;
    shard.write(into)
}

#[tactic(auto, unfolding(crate::specs::Texts::get_shard_text))]
fn write_get_shard(shard: &ShardName, into: &mut Vec<u8>) -> Result<(), OutOfMemory>
    ensures { OnOk result (into.new.items ≡ into.old.items ++ get_shard_text shard.now) }
{
    into.extend_from_slice(b"GetShard ")?;
    shard.write(into)
}

#[tactic(auto, unfolding(crate::specs::Texts::get_tablets_text))]
fn write_get_tablets(shard: &ShardName, into: &mut Vec<u8>) -> Result<(), OutOfMemory>
    ensures { OnOk result (into.new.items ≡ into.old.items ++ get_tablets_text shard.now) }
{
    into.extend_from_slice(b"GetTablets ")?;
    shard.write(into)
}

#[tactic(auto, unfolding(crate::specs::Texts::external_text))]
fn write_external(alias: &Alias, into: &mut Vec<u8>) -> Result<(), OutOfMemory>
    ensures { OnOk result (into.new.items ≡ into.old.items ++ external_text alias.now) }
{
    into.extend_from_slice(b"TabletExternallyReparented ")?;
    alias.write(into)
}

#[tactic(auto, unfolding(crate::specs::Texts::show_text))]
fn write_show(alias: &Alias, into: &mut Vec<u8>) -> Result<(), OutOfMemory>
    ensures { OnOk result (into.new.items ≡ into.old.items ++ show_text alias.now) }
{
    into.extend_from_slice(b"show ")?;
    alias.write(into)
}

/// Appends the command's word, and the shard or the tablet that it was given.
pub fn write_command(command: &Command, into: &mut Vec<u8>) -> Result<(), OutOfMemory>
    ensures { OnOk result (into.new.items ≡ into.old.items ++ command_text command.now) }
{
    match command {
        Command::Planned { shard, .. } => write_planned(shard, into),
        Command::Emergency { shard, .. } => write_emergency(shard, into),
        Command::External { alias } => write_external(alias, into),
        Command::Vtorc => {
            into.extend_from_slice(b"vtorc")?;
            Ok(())
        }
        Command::Write { .. } => {
            into.extend_from_slice(b"write")?;
            Ok(())
        }
        Command::Show { alias } => write_show(alias, into),
        Command::GetShard { shard } => write_get_shard(shard, into),
        Command::GetTablets { shard } => write_get_tablets(shard, into),
    }
}

/// Appends what each line of an answer begins with.
fn write_begin(begun: Option<&Begun>, into: &mut Vec<u8>) -> Result<(), OutOfMemory>
    ensures { OnOk result (into.new.items ≡ into.old.items ++ begin_text (option_copied begun.entry)) }
{
    match begun {
        Some(begun) => write_prefix(begun.actor.as_slice(), into),
        None => Ok(()),
    }
}

#[tactic(auto, unfolding(crate::specs::Texts::head_text))]
fn write_begun(begun: &Begun, into: &mut Vec<u8>) -> Result<(), OutOfMemory>
    ensures { OnOk result (into.new.items ≡ into.old.items ++ head_text (Some begun.now)) }
{
    write_prefix(begun.actor.as_slice(), into)?;
    write_command(&begun.command, into)
}

/// Appends what the first line of an answer begins with.
#[tactic(auto, unfolding(crate::specs::Texts::head_text))]
fn write_head(begun: Option<&Begun>, into: &mut Vec<u8>) -> Result<(), OutOfMemory>
    ensures { OnOk result (into.new.items ≡ into.old.items ++ head_text (option_copied begun.entry)) }
{
    match begun {
        Some(begun) => write_begun(begun, into),
        None => Ok(()),
    }
}

#[tactic(auto, unfolding(crate::specs::Texts::promoted_text))]
pub(crate) fn write_promoted(
    alias: &Alias,
    term: u64,
    into: &mut Vec<u8>,
) -> Result<(), OutOfMemory>
    ensures { OnOk result (into.new.items ≡ into.old.items ++ promoted_text alias.now term) }
{
    into.extend_from_slice(b"promoted ")?;
    write_in_term(alias, term, into)
}

#[tactic(auto, unfolding(crate::specs::Texts::nothing_to_do_text))]
fn write_nothing_to_do(alias: &Alias, into: &mut Vec<u8>) -> Result<(), OutOfMemory>
    ensures { OnOk result (into.new.items ≡ into.old.items ++ nothing_to_do_text alias.now) }
{
    into.extend_from_slice(b"nothing to do, primary is ")?;
    alias.write(into)
}

#[tactic(auto, unfolding(crate::specs::Texts::recorded_text))]
fn write_recorded(term: u64, into: &mut Vec<u8>) -> Result<(), OutOfMemory>
    ensures { OnOk result (into.new.items ≡ into.old.items ++ recorded_text term) }
{
    into.extend_from_slice(b"recorded in term ")?;
    write_number(term, into)
}

/// Appends whether the old primary got its place back, where that was tried.
fn write_undo(tried: Option<bool>, into: &mut Vec<u8>) -> Result<(), OutOfMemory>
    ensures { OnOk result (into.new.items ≡ into.old.items ++ undo_text tried) }
{
    match tried {
        None => Ok(()),
        Some(true) => {
            into.extend_from_slice(b"; undone")?;
            Ok(())
        }
        Some(false) => {
            into.extend_from_slice(b"; not undone")?;
            Ok(())
        }
    }
}

fn is_out_of_memory(refusal: &Refusal) -> bool
    ensures { result ≡ is_out_of_memory refusal.now }
{
    matches!(refusal, Refusal::OutOfMemory)
}

#[tactic(auto, unfolding(crate::specs::Texts::refused_text))]
pub(crate) fn write_refused(
    refusal: &Refusal,
    tried: Option<bool>,
    into: &mut Vec<u8>,
) -> Result<(), OutOfMemory>
    ensures { OnOk result (into.new.items ≡ into.old.items ++ refused_text refusal.now tried) }
{
    into.extend_from_slice(b"refused ")?;
    write_refusal(refusal, into)?;
    if is_out_of_memory(refusal) {
        return Ok(());
    }
    write_undo(tried, into)
}

/// Appends a transaction, and where and when it was written.
#[tactic(auto, unfolding(crate::specs::Texts::written_text))]
fn write_written(
    gtid: &Gtid,
    alias: &Alias,
    term: u64,
    into: &mut Vec<u8>,
) -> Result<(), OutOfMemory>
    ensures { OnOk result (into.new.items ≡ into.old.items ++ written_text gtid.now alias.now term) }
{
    gtid.write(into)?;
    into.extend_from_slice(b" on ")?;
    write_in_term(alias, term, into)
}

#[tactic(auto, unfolding(crate::specs::Texts::committed_text))]
fn write_committed(
    gtid: &Gtid,
    alias: &Alias,
    term: u64,
    into: &mut Vec<u8>,
) -> Result<(), OutOfMemory>
    ensures { OnOk result (into.new.items ≡ into.old.items ++ committed_text gtid.now alias.now term) }
{
    into.extend_from_slice(b"committed ")?;
    write_written(gtid, alias, term, into)
}

#[tactic(auto, unfolding(crate::specs::Texts::not_primary_text))]
fn write_not_primary(alias: &Alias, stand: &Standing, into: &mut Vec<u8>) -> Result<(), OutOfMemory>
    ensures { OnOk result (into.new.items ≡ into.old.items ++ not_primary_text alias.now stand.now) }
{
    into.extend_from_slice(b"not primary: ")?;
    write_stands(alias, stand, into)
}

#[tactic(auto, unfolding(crate::specs::Texts::unknown_text))]
fn write_unknown(
    gtid: &Gtid,
    alias: &Alias,
    term: u64,
    into: &mut Vec<u8>,
) -> Result<(), OutOfMemory>
    ensures { OnOk result (into.new.items ≡ into.old.items ++ unknown_text gtid.now alias.now term) }
{
    into.extend_from_slice(b"unknown ")?;
    write_written(gtid, alias, term, into)
}

#[tactic(auto, unfolding(crate::specs::Texts::shown_text))]
fn write_shown(stand: &Standing, position: &GtidSet, into: &mut Vec<u8>) -> Result<(), OutOfMemory>
    ensures { OnOk result (into.new.items ≡ into.old.items ++ shown_text stand.now position.now) }
{
    write_standing(stand, into)?;
    into.extend_from_slice(b", position ")?;
    write_position(position, into)
}

/// Appends what the first line of an answer says.
fn write_said(answer: &CommandAnswer, into: &mut Vec<u8>) -> Result<(), OutOfMemory>
    ensures { OnOk result (into.new.items ≡ into.old.items ++ said_text answer.now) }
{
    match answer {
        CommandAnswer::Promoted { alias, term, .. } => write_promoted(alias, *term, into),
        CommandAnswer::NothingToDo { alias } => write_nothing_to_do(alias, into),
        CommandAnswer::Recorded { term } => write_recorded(*term, into),
        CommandAnswer::Refused { refusal, undone } => write_refused(refusal, *undone, into),
        CommandAnswer::Vtorc { findings, .. } => write_first_finding(findings.as_slice(), into),
        CommandAnswer::Committed { gtid, alias, term } => write_committed(gtid, alias, *term, into),
        CommandAnswer::NotPrimary { alias, stand } => write_not_primary(alias, stand, into),
        CommandAnswer::NoPrimaryRecorded => {
            into.extend_from_slice(b"no primary recorded")?;
            Ok(())
        }
        CommandAnswer::Unknown { gtid, alias, term } => write_unknown(gtid, alias, *term, into),
        CommandAnswer::Shown {
            stand,
            position,
            ..
        } => write_shown(stand, position, into),
        CommandAnswer::Shard { shard, recorded } => write_shard(shard, recorded, into),
        CommandAnswer::Tablets { rows } => write_tablets(rows.as_slice(), into),
    }
}

fn is_json(answer: &CommandAnswer) -> bool
    ensures { result ≡ is_json answer.now }
{
    match answer {
        CommandAnswer::Promoted { .. } => false,
        CommandAnswer::NothingToDo { .. } => false,
        CommandAnswer::Recorded { .. } => false,
        CommandAnswer::Refused { .. } => false,
        CommandAnswer::Vtorc { .. } => false,
        CommandAnswer::Committed { .. } => false,
        CommandAnswer::NotPrimary { .. } => false,
        CommandAnswer::NoPrimaryRecorded => false,
        CommandAnswer::Unknown { .. } => false,
        CommandAnswer::Shown { .. } => false,
        CommandAnswer::Shard { .. } => true,
        CommandAnswer::Tablets { .. } => true,
    }
}

/// Appends what stands before what a command says.
pub(crate) fn write_says(begun: Option<&Begun>, into: &mut Vec<u8>) -> Result<(), OutOfMemory>
    ensures { OnOk result (into.new.items ≡ into.old.items ++ says_text (option_copied begun.entry)) }
{
    write_head(begun, into)?;
    into.extend_from_slice(b": ")?;
    Ok(())
}

/// Appends what stands before what an answer says.
fn write_lead(
    begun: Option<&Begun>,
    answer: &CommandAnswer,
    into: &mut Vec<u8>,
) -> Result<(), OutOfMemory>
    ensures { OnOk result (into.new.items ≡ into.old.items ++ lead_text (option_copied begun.entry) answer.now) }
{
    if is_json(answer) {
        return write_begin(begun, into);
    }
    write_says(begun, into)
}

#[tactic(auto, unfolding(crate::specs::Texts::first_line))]
fn write_first_line(
    begun: Option<&Begun>,
    answer: &CommandAnswer,
    into: &mut Vec<u8>,
) -> Result<(), OutOfMemory>
    ensures { OnOk result (into.new.items ≡ into.old.items ++ first_line (option_copied begun.entry) answer.now) }
{
    write_lead(begun, answer, into)?;
    write_said(answer, into)?;
    into.push(b'\n')?;
    Ok(())
}

/// Appends the line of a tablet that did not join.
fn write_left_line(
    begun: Option<&Begun>,
    not_joined: &NotJoined,
    into: &mut Vec<u8>,
) -> Result<(), OutOfMemory>
    ensures { OnOk result (into.new.items ≡ into.old.items ++ line (begin_text (option_copied begun.entry) ++ not_joined_text not_joined.now)) }
{
    write_begin(begun, into)?;
    write_not_joined(not_joined, into)?;
    into.push(b'\n')?;
    Ok(())
}

/// Appends a line for each of these tablets.
pub(crate) fn write_left_lines(
    begun: Option<&Begun>,
    left: &[NotJoined],
    into: &mut Vec<u8>,
) -> Result<(), OutOfMemory>
    ensures { OnOk result (into.new.items ≡ into.old.items ++ left_lines (begin_text (option_copied begun.entry)) left.now) }
{
    for not_joined in left {
        write_left_line(begun, not_joined, into)?;
    }
    Ok(())
}

/// Appends the lines behind the first.
fn write_further_lines(
    begun: Option<&Begun>,
    answer: &CommandAnswer,
    into: &mut Vec<u8>,
) -> Result<(), OutOfMemory>
    ensures { OnOk result (into.new.items ≡ into.old.items ++ further_lines (option_copied begun.entry) answer.now) }
{
    match answer {
        CommandAnswer::Promoted { left, .. } => write_left_lines(begun, left.as_slice(), into),
        CommandAnswer::Vtorc { findings, rest } => {
            write_watch(begun, findings.as_slice(), rest.as_slice(), into)
        }
        _ => Ok(()),
    }
}

/// Appends the lines of an answer.
pub fn write_answer(
    begun: Option<&Begun>,
    answer: &CommandAnswer,
    into: &mut Vec<u8>,
) -> Result<(), OutOfMemory>
    ensures { OnOk result (into.new.items ≡ into.old.items ++ answer_text (option_copied begun.entry) answer.now) }
{
    write_first_line(begun, answer, into)?;
    write_further_lines(begun, answer, into)
}

/// Whether an answer counts as refused.
pub(crate) fn is_refused(answer: &CommandAnswer) -> bool
    ensures { result ≡ is_refused answer.now }
{
    match answer {
        CommandAnswer::Promoted { .. } => false,
        CommandAnswer::NothingToDo { .. } => false,
        CommandAnswer::Recorded { .. } => false,
        CommandAnswer::Refused { .. } => true,
        CommandAnswer::Vtorc { rest, .. } => has_setback(rest.as_slice()),
        CommandAnswer::Committed { .. } => false,
        CommandAnswer::NotPrimary { .. } => true,
        CommandAnswer::NoPrimaryRecorded => true,
        CommandAnswer::Unknown { .. } => true,
        CommandAnswer::Shown { .. } => false,
        CommandAnswer::Shard { .. } => false,
        CommandAnswer::Tablets { .. } => false,
    }
}
