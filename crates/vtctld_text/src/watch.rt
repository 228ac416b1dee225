//! What a `vtorc` found, and what it did about it.

ghost use Rattle.std.specs.Prelude.{◌≡◌, ◌++◌, ◌∷◌, [], OnOk};
ghost use Rattle.std.specs.Option.{option_copied};
ghost use Rattle.std.specs.List.{flat_map, list_any};
ghost use Rattle.vtctld_text.specs.Findings.{analysis_text, finding_text, first_found_text, found_behind};
ghost use Rattle.vtctld_text.specs.Texts.{joined_text, left_alone_text, drained_text, done_text, left_by, finding_line, done_lines, is_setback};

use crate::answer::{write_left_lines, write_promoted, write_refused, write_says};
use crate::begun::Begun;
use shard_base::OutOfMemory;
use shard_calls::{Analysis, Finding, Left, NotJoined, Rest};
use shard_names::Alias;
use tablet_text::write_left;

fn analysis_name(analysis: Analysis) -> &'static [u8]
    ensures { result.now ≡ analysis_text analysis }
{
    match analysis {
        Analysis::NoProblem => b"NoProblem",
        Analysis::ClusterHasNoPrimary => b"ClusterHasNoPrimary",
        Analysis::DeadPrimaryWithoutReplicas => b"DeadPrimaryWithoutReplicas",
        Analysis::DeadPrimaryAndReplicas => b"DeadPrimaryAndReplicas",
        Analysis::DeadPrimaryAndSomeReplicas => b"DeadPrimaryAndSomeReplicas",
        Analysis::DeadPrimary => b"DeadPrimary",
        Analysis::PrimaryHasPrimary => b"PrimaryHasPrimary",
        Analysis::PrimaryIsReadOnly => b"PrimaryIsReadOnly",
        Analysis::LockedSemiSyncPrimary => b"LockedSemiSyncPrimary",
        Analysis::ErrantGTIDDetected => b"ErrantGTIDDetected",
        Analysis::ReplicaIsWritable => b"ReplicaIsWritable",
        Analysis::ConnectedToWrongPrimary => b"ConnectedToWrongPrimary",
        Analysis::NotConnectedToPrimary => b"NotConnectedToPrimary",
        Analysis::ReplicationStopped => b"ReplicationStopped",
    }
}

/// Appends what is amiss, and with which tablet.
#[tactic(auto, unfolding(crate::specs::Findings::finding_text))]
fn write_finding(finding: &Finding, into: &mut Vec<u8>) -> Result<(), OutOfMemory>
    ensures { OnOk result (into.new.items ≡ into.old.items ++ finding_text finding.now) }
{
    into.extend_from_slice(analysis_name(finding.analysis))?;
    into.extend_from_slice(b" on ")?;
    finding.alias.write(into)
}

/// Appends what is amiss first, or that nothing is.
pub(crate) fn write_first_finding(
    findings: &[Finding],
    into: &mut Vec<u8>,
) -> Result<(), OutOfMemory>
    ensures { OnOk result (into.new.items ≡ into.old.items ++ first_found_text findings.now) }
{
    match findings.split_first() {
        Some((finding, _)) => write_finding(finding, into),
        None => {
            into.extend_from_slice(b"NoProblem")?;
            Ok(())
        }
    }
}

#[tactic(auto, unfolding(crate::specs::Texts::finding_line))]
fn write_finding_line(
    begun: Option<&Begun>,
    finding: &Finding,
    into: &mut Vec<u8>,
) -> Result<(), OutOfMemory>
    ensures { OnOk result (into.new.items ≡ into.old.items ++ finding_line (option_copied begun.entry) finding.now) }
{
    write_says(begun, into)?;
    write_finding(finding, into)?;
    into.push(b'\n')?;
    Ok(())
}

fn write_finding_lines(
    begun: Option<&Begun>,
    findings: &[Finding],
    into: &mut Vec<u8>,
) -> Result<(), OutOfMemory>
    ensures { OnOk result (into.new.items ≡ into.old.items ++ flat_map (finding_line (option_copied begun.entry)) findings.now) }
{
    for finding in findings {
        write_finding_line(begun, finding, into)?;
    }
    Ok(())
}

/// Appends a line for each finding behind the first.
fn write_further_findings(
    begun: Option<&Begun>,
    findings: &[Finding],
    into: &mut Vec<u8>,
) -> Result<(), OutOfMemory>
    ensures { OnOk
        result
        (into.new.items ≡ into.old.items ++ flat_map (finding_line (option_copied begun.entry)) (found_behind findings.now)) }
{
    match findings.split_first() {
        Some((_, further)) => write_finding_lines(begun, further, into),
        None => Ok(()),
    }
}

#[tactic(auto, unfolding(crate::specs::Texts::joined_text))]
fn write_joined(alias: &Alias, to: &Alias, into: &mut Vec<u8>) -> Result<(), OutOfMemory>
    ensures { OnOk result (into.new.items ≡ into.old.items ++ joined_text alias.now to.now) }
{
    into.extend_from_slice(b"joined ")?;
    alias.write(into)?;
    into.extend_from_slice(b" to ")?;
    to.write(into)
}

/// Appends which tablet was left as it was, and why.
#[tactic(auto, unfolding(crate::specs::Texts::left_alone_text))]
fn write_left_alone(alias: &Alias, left: &Left, into: &mut Vec<u8>) -> Result<(), OutOfMemory>
    ensures { OnOk result (into.new.items ≡ into.old.items ++ left_alone_text alias.now left.now) }
{
    into.extend_from_slice(b"left ")?;
    alias.write(into)?;
    into.extend_from_slice(b": ")?;
    write_left(left, into)
}

#[tactic(auto, unfolding(crate::specs::Texts::drained_text))]
fn write_drained(alias: &Alias, into: &mut Vec<u8>) -> Result<(), OutOfMemory>
    ensures { OnOk result (into.new.items ≡ into.old.items ++ drained_text alias.now) }
{
    into.extend_from_slice(b"drained ")?;
    alias.write(into)
}

/// Appends what was done.
fn write_act(rest: &Rest, into: &mut Vec<u8>) -> Result<(), OutOfMemory>
    ensures { OnOk result (into.new.items ≡ into.old.items ++ done_text rest.now) }
{
    match rest {
        Rest::Promoted { alias, term, .. } => write_promoted(alias, *term, into),
        Rest::Refused { refusal, undone } => write_refused(refusal, *undone, into),
        Rest::Joined { alias, to } => write_joined(alias, to, into),
        Rest::Left { alias, left } => write_left_alone(alias, left, into),
        Rest::Drained { alias } => write_drained(alias, into),
    }
}

/// The tablets that did not join a primary that was promoted.
fn left_by(rest: &Rest) -> &[NotJoined]
    ensures { result.now ≡ left_by rest.now }
{
    match rest {
        Rest::Promoted { left, .. } => left.as_slice(),
        _ => &[],
    }
}

/// Appends the line of what was done, and behind it one for each tablet that did not join.
#[tactic(auto, unfolding(crate::specs::Texts::done_lines))]
fn write_done_lines(
    begun: Option<&Begun>,
    rest: &Rest,
    into: &mut Vec<u8>,
) -> Result<(), OutOfMemory>
    ensures { OnOk result (into.new.items ≡ into.old.items ++ done_lines (option_copied begun.entry) rest.now) }
{
    write_says(begun, into)?;
    write_act(rest, into)?;
    into.push(b'\n')?;
    write_left_lines(begun, left_by(rest), into)
}

fn write_done(begun: Option<&Begun>, rest: &[Rest], into: &mut Vec<u8>) -> Result<(), OutOfMemory>
    ensures { OnOk result (into.new.items ≡ into.old.items ++ flat_map (done_lines (option_copied begun.entry)) rest.now) }
{
    for line in rest {
        write_done_lines(begun, line, into)?;
    }
    Ok(())
}

/// Appends what else a `vtorc` found, and what it did about it.
pub(crate) fn write_watch(
    begun: Option<&Begun>,
    findings: &[Finding],
    rest: &[Rest],
    into: &mut Vec<u8>,
) -> Result<(), OutOfMemory>
    ensures { OnOk
        result
        (into.new.items
        ≡ into.old.items
        ++ (flat_map (finding_line (option_copied begun.entry)) (found_behind findings.now)
        ++ flat_map (done_lines (option_copied begun.entry)) rest.now)) }
{
    write_further_findings(begun, findings, into)?;
    write_done(begun, rest, into)
}

/// Whether what was done counts as refused.
fn is_setback(rest: &Rest) -> bool
    ensures { result ≡ is_setback rest.now }
{
    match rest {
        Rest::Promoted { .. } => false,
        Rest::Refused { .. } => true,
        Rest::Joined { .. } => false,
        Rest::Left { .. } => true,
        Rest::Drained { .. } => false,
    }
}

/// Whether anything that was done counts as refused.
pub(crate) fn has_setback(rest: &[Rest]) -> bool
    ensures { result ≡ list_any is_setback rest.now }
{
    rest.iter().any(|line| is_setback(line))
}
