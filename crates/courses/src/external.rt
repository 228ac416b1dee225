//! The course of `TabletExternallyReparented`.

ghost use Rattle.std.specs.Prelude.{◌≡◌};
ghost use Rattle.courses.specs.Walks.{Walks};
ghost use Rattle.courses.specs.External.{promoted_term, external_course};

use crate::Exit;
use crate::walk::{Walk, or_refusing, refusing};
use refusals::{refusal_of_undeclared, term_of_promoted};
use shard_calls::{Answer, Call, CommandAnswer, Group};
use shard_names::Alias;
use topo_lock::Intent;

/// The term of the last intent, if the tablet says that it stands as the primary of it.
fn promoted_term(alias: &Alias, intent: &Option<Intent>, answer: &Answer) -> Result<u64, Exit>
    ensures { result ≡ promoted_term alias.now intent.now answer.now }
{
    let Answer::Status { stand, newest, .. } = answer else {
        return Err(Exit::Strays);
    };
    or_refusing(term_of_promoted(alias, *newest, intent, stand))
}

/// The course of `TabletExternallyReparented`.
#[tactic(auto, unfolding(crate::specs::External::external_course))]
pub fn external_course(
    walk: &mut Walk<'_>,
    group: &Group,
    alias: &Alias,
) -> Result<CommandAnswer, Exit>
    ensures { Walks result walk.new.rest.now (external_course group.now alias.now walk.old.rest.now) }
{
    refusing(refusal_of_undeclared(group, &Some(*alias)))?;
    walk.take_lock()?;
    let seen = walk.read()?;
    let answer = walk.need(alias, Call::Status)?;
    let term = promoted_term(alias, &seen.intent, answer)?;
    walk.record(alias)?;
    Ok(CommandAnswer::Recorded { term })
}
