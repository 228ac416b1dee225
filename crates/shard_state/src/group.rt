//! The shard as it was declared.

ghost use Rattle.std.specs.Prelude.{◌≡◌, IfOk};
ghost use Rattle.shard_state.specs.State.{data_of, group_in, tablets_of};

use crate::Fields;
use shard_base::{Items, OutOfMemory};
use shard_calls::Group;
use shard_names::Tablet;
use std::alloc::Global;
use tablet_manager::Manager;

fn tablets_of(alloc: Global, managers: &[Manager]) -> Result<Vec<Tablet>, OutOfMemory>
    ensures { IfOk result (λ tablets. tablets.items ≡ tablets_of managers.now) }
{
    let mut tablets = Vec::new(alloc);
    for manager in managers {
        tablets.push(*manager.me())?;
    }
    Ok(tablets)
}

/// The tablets of the shard and its durability policy.
pub fn group_of(alloc: Global, fields: &Fields) -> Result<Group, OutOfMemory>
    ensures { IfOk result (λ group. group ≡ group_in (data_of fields.now)) }
{
    let tablets = tablets_of(alloc, &fields.managers)?;
    Ok(Group {
        tablets: Items::from_vec(tablets),
        policy: fields.policy,
    })
}
