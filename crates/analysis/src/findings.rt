//! What is to be done about what is amiss.

ghost use Rattle.std.specs.Prelude.{◌≡◌, ◌++◌, IfOk, OnOk};
ghost use Rattle.std.specs.List.{flat_map};
ghost use Rattle.shard_calls.specs.Analysis.{finds, is_errant, is_orphaned, is_problem, is_to_repair, is_urgent, problems, to_repair};
ghost use Rattle.analysis.specs.Kept.{kept_if, problem_in, repair_in};

use shard_base::{Items, OutOfMemory};
use shard_calls::{Analysis, Finding};
use std::alloc::Global;

/// Whether something is amiss.
pub fn is_problem(analysis: Analysis) -> bool
    ensures { result ≡ is_problem analysis }
{
    !matches!(analysis, Analysis::NoProblem)
}

/// Whether a primary is to be elected.
fn is_orphaned(analysis: Analysis) -> bool
    ensures { result ≡ is_orphaned analysis }
{
    matches!(analysis, Analysis::ClusterHasNoPrimary)
}

/// Whether the primary is to be replaced.
fn is_urgent(analysis: Analysis) -> bool
    ensures { result ≡ is_urgent analysis }
{
    matches!(
        analysis,
        Analysis::DeadPrimary
            | Analysis::DeadPrimaryAndSomeReplicas
            | Analysis::PrimaryHasPrimary
            | Analysis::PrimaryIsReadOnly
    )
}

/// Whether the tablet is to be drained.
pub fn is_errant(analysis: Analysis) -> bool
    ensures { result ≡ is_errant analysis }
{
    matches!(analysis, Analysis::ErrantGTIDDetected)
}

/// Whether the tablet is to be drained, or to join the primary.
fn is_to_repair(analysis: Analysis) -> bool
    ensures { result ≡ is_to_repair analysis }
{
    matches!(
        analysis,
        Analysis::ReplicaIsWritable
            | Analysis::ConnectedToWrongPrimary
            | Analysis::NotConnectedToPrimary
            | Analysis::ReplicationStopped
            | Analysis::ErrantGTIDDetected
    )
}

/// Whether a primary is to be elected. It takes no memory.
pub fn finds_orphaned(findings: &[Finding]) -> bool
    ensures { result ≡ finds is_orphaned findings.now }
{
    findings.iter().any(|finding| is_orphaned(finding.analysis))
}

/// Whether the primary is to be replaced. It takes no memory.
pub fn finds_urgent(findings: &[Finding]) -> bool
    ensures { result ≡ finds is_urgent findings.now }
{
    findings.iter().any(|finding| is_urgent(finding.analysis))
}

/// Whether a tablet is to be drained, or to join the primary. It takes no memory.
pub fn finds_to_repair(findings: &[Finding]) -> bool
    ensures { result ≡ finds is_to_repair findings.now }
{
    findings
        .iter()
        .any(|finding| is_to_repair(finding.analysis))
}

fn push_kept(into: &mut Items<Finding>, kept: bool, finding: &Finding) -> Result<(), OutOfMemory>
    ensures { OnOk result (into.new ≡ into.old ++ kept_if kept finding.now) }
{
    if kept {
        return into.push(*finding);
    }
    Ok(())
}

fn problems_one_by_one(alloc: Global, findings: &[Finding]) -> Result<Items<Finding>, OutOfMemory>
    ensures { IfOk result (λ kept. kept ≡ flat_map problem_in findings.now) }
{
    let mut kept = Items::new(alloc);
    for finding in findings {
        push_kept(&mut kept, is_problem(finding.analysis), finding)?;
    }
    Ok(kept)
}

/// Those of which something is amiss.
#[tactic(auto, using(crate::proofs::KeptLemmas::problems_are))]
pub fn problems(alloc: Global, findings: &[Finding]) -> Result<Items<Finding>, OutOfMemory>
    ensures { IfOk result (λ kept. kept ≡ problems findings.now) }
{
    problems_one_by_one(alloc, findings)
}

fn repairs_one_by_one(alloc: Global, findings: &[Finding]) -> Result<Items<Finding>, OutOfMemory>
    ensures { IfOk result (λ kept. kept ≡ flat_map repair_in findings.now) }
{
    let mut kept = Items::new(alloc);
    for finding in findings {
        push_kept(&mut kept, is_to_repair(finding.analysis), finding)?;
    }
    Ok(kept)
}

/// Those that are to be drained, or to join the primary.
#[tactic(auto, using(crate::proofs::KeptLemmas::repairs_are))]
pub fn to_repair(alloc: Global, findings: &[Finding]) -> Result<Items<Finding>, OutOfMemory>
    ensures { IfOk result (λ kept. kept ≡ to_repair findings.now) }
{
    repairs_one_by_one(alloc, findings)
}
