//! Who did not join a new primary.

ghost use Rattle.std.specs.Prelude.{◌≡◌, ◌++◌, IfOk, OnOk};
ghost use Rattle.std.specs.List.{flat_map};
ghost use Rattle.shard_calls.specs.Causes.{left_by, entry_of, not_joined};

use shard_base::{Items, OutOfMemory};
use shard_calls::{Answer, Deed, Left, NotJoined, Outcome, Why};
use shard_names::Alias;
use std::alloc::Global;

/// Why a tablet that was asked to replicate does not, if it does not.
pub fn left_by(outcome: &Outcome) -> Result<Option<Left>, OutOfMemory>
    ensures { IfOk result (λ left. left ≡ left_by outcome.now) }
{
    match outcome {
        Outcome::GivenUp { why } => Ok(Some(Left::GivenUp(*why))),
        Outcome::Answered {
            answer: Answer::Errant { extra },
        } => {
            let extra = extra.copy()?;
            Ok(Some(Left::Errant { extra }))
        }
        Outcome::Answered {
            answer: Answer::StaleTerm { seen },
        } => { Ok(Some(Left::StaleTerm { seen: *seen })) }
        Outcome::Answered {
            answer: Answer::PromisedAhead { promised },
        } => {
            let promised = *promised;
            Ok(Some(Left::PromisedAhead { promised }))
        }
        Outcome::Answered { .. } => Ok(None),
    }
}

/// Puts the tablet at the end, if it did not join.
pub fn push_entry(
    into: &mut Items<NotJoined>,
    alias: &Alias,
    left: Option<Left>,
) -> Result<(), OutOfMemory>
    ensures { OnOk result (into.new ≡ into.old ++ entry_of alias.now left) }
{
    let _why: Option<&Why> = None;
    match left {
        Some(left) => into.push(NotJoined {
            alias: *alias,
            left,
        }),
        None => Ok(()),
    }
}

fn push_not_joined(into: &mut Items<NotJoined>, deed: &Deed) -> Result<(), OutOfMemory>
    ensures { OnOk result (into.new ≡ into.old ++ not_joined deed.now) }
{
    let Deed::Asked { asked } = deed else {
        return Ok(());
    };
    let Some(outcome) = &asked.outcome else {
        return Ok(());
    };
    let left = left_by(outcome)?;
    push_entry(into, &asked.alias, left)
}

/// Who did not join, of those that these calls asked to replicate, in the order of the calls.
pub fn not_joined(alloc: Global, deeds: &[Deed]) -> Result<Items<NotJoined>, OutOfMemory>
    ensures { IfOk result (λ left. left ≡ flat_map not_joined deeds.now) }
{
    let mut left = Items::new(alloc);
    for deed in deeds {
        push_not_joined(&mut left, deed)?;
    }
    Ok(left)
}
