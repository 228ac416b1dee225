//! The fields of a shard to which nothing has happened.

ghost use Rattle.std.specs.Prelude.{◌≡◌, ◌<◌, ◌≤◌, ◌+◌, ◌∷◌, [], length, IfOk, OnOk};
ghost use Rattle.shard_names.specs.Tablets.{AreTablets};
ghost use Rattle.shard_calls.specs.World.{idle_actor, main_name};
ghost use Rattle.shard_core.specs.Opened.{AreOpened};

use durability::Durability;
use shard_base::OutOfMemory;
use shard_calls::ActorState;
use shard_names::{Name, Tablet};
use std::alloc::Global;
use tablet_manager::Manager;

/// The next tablet, to which nothing has happened, joins those before it.
#[tactic(auto, using(crate::proofs::OpeningLemmas::opened_more))]
fn open_next(
    alloc: Global,
    managers: &mut Vec<Manager>,
    tablets: &[Tablet],
    policy: Durability,
    at: usize,
) -> Result<(), OutOfMemory>
    requires shard { AreTablets tablets.now }
    requires within { at < length tablets.now }
    requires opened { AreOpened (record { tablets = tablets.now; policy = policy }) at managers.old.items }
    ensures { OnOk result (AreOpened (record { tablets = tablets.now; policy = policy }) (at + 1) managers.new.items) }
{
    match tablets.get(at) {
        Some(tablet) => {
            let manager = Manager::new(alloc, *tablet, tablets, policy)?;
            managers.push(manager)?;
            Ok(())
        }
        None => unreachable!(),
    }
}

/// The tablets of a shard with this policy, to which nothing has happened.
pub(crate) fn opened_managers(
    alloc: Global,
    tablets: &[Tablet],
    policy: Durability,
) -> Result<Vec<Manager>, OutOfMemory>
    requires { AreTablets tablets.now }
    ensures { IfOk result (λ managers. AreOpened (record { tablets = tablets.now; policy = policy }) (length tablets.now) managers.items) }
{
    let mut managers = Vec::new(alloc);
    for at in 0..tablets.len() {
        open_next(alloc, &mut managers, tablets, policy, at)?;
    }
    Ok(managers)
}

/// The actor who needs no name.
const MAIN: &[u8] = b"main";

/// The actors before anybody has given a command.
pub(crate) fn opened_actors(alloc: Global) -> Result<Vec<ActorState>, OutOfMemory>
    ensures { IfOk result (λ actors. actors.items ≡ idle_actor main_name ∷ []) }
{
    let mut actors = Vec::new(alloc);
    match Name::from_slice(MAIN) {
        Some(name) => actors.push(ActorState {
            name,
            pending: None,
            writes: 0,
        })?,
        None => unreachable!(),
    }
    Ok(actors)
}
