//! Which calls a command may give up, while it waits for one.

ghost use Rattle.std.specs.Prelude.{◌≡◌};
ghost use Rattle.shard_calls.specs.declared.span.Deed.TheVariants as deeds;
ghost use Rattle.shard_core.specs.Kept.{world_of};
ghost use Rattle.planned.specs.Course.{give_up_of, give_ups, first_of};

use shard_calls::{Asked, Deed, Event};
use shard_core::Shard;

/// The giving up of the call, if it is out and may be given up.
fn give_up(shard: &Shard, command: u64, asked: &Asked) -> Option<Event>
    ensures { result ≡ give_up_of (world_of shard.now) command (deeds.Asked asked.now) }
{
    let event = Event::GiveUp {
        command,
        message: asked.message,
    };
    if asked.outcome.is_none() && shard.meets_at_once(&event) {
        Some(event)
    } else {
        None
    }
}

/// The giving up of the call that this deed made, if it is out and may be given up.
fn give_up_of(shard: &Shard, command: u64, deed: &Deed) -> Option<Event>
    ensures { result ≡ give_up_of (world_of shard.now) command deed.now }
{
    match deed {
        Deed::Asked { asked } => give_up(shard, command, asked),
        Deed::Took { .. } => None,
        Deed::Read { .. } => None,
        Deed::Intended { .. } => None,
        Deed::Recorded { .. } => None,
        Deed::Drained { .. } => None,
        Deed::Wrote { .. } => None,
        Deed::Told { .. } => None,
    }
}

/// The giving up of the first of the calls in the span that are out and may be given up.
#[tactic(auto, using(crate::proofs::GivingLemmas::first_cons))]
pub(crate) fn first_given_up(shard: &Shard, command: u64, span: &[Deed]) -> Option<Event>
    ensures { result ≡ first_of (give_ups (world_of shard.now) command span.now) }
{
    let mut rest = span;
    while let Some((deed, later)) = rest.split_first() {
        let given = give_up_of(shard, command, deed);
        if given.is_some() {
            return given;
        }
        rest = later;
    }
    None
}
