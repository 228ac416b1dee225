//! Actors, and the commands that they have open.

ghost use Rattle.std.specs.Prelude.{◌≡◌, ◌<◌, length, IfSome};
ghost use Rattle.shard_calls.specs.World.{place_of, open_of};

use shard_calls::ActorState;
use shard_names::Name;

/// The place of the actor with this name, counted from 0. It costs the steps to it.
pub fn place_of(actors: &[ActorState], name: &Name) -> Option<usize>
    ensures place { result ≡ place_of actors.now name.now }
    ensures within { IfSome result (λ k. k < length actors.now) }
{
    actors.iter().position(|actor| actor.name == *name)
}

/// The number of the command that an actor has open.
pub fn open_of(actors: &[ActorState], name: &Name) -> Option<u64>
    ensures { result ≡ open_of actors.now name.now }
{
    match place_of(actors, name) {
        Some(at) => match actors.get(at) {
            Some(actor) => actor.pending,
            None => None,
        },
        None => None,
    }
}
