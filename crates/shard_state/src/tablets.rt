ghost use Rattle.std.specs.Prelude.{◌≡◌, ◌<◌, length, position, MatchOption};
ghost use Rattle.std.specs.Option.{option_copied};
ghost use Rattle.shard_names.specs.Tablets.{alias_eq, tablet_of, is_declared};
ghost use Rattle.shard_calls.specs.Stands.{is_down};
ghost use Rattle.shard_state.specs.State.{tablets_of, state_at};
ghost use Rattle.shard_state.specs.Managers.{manager_of, state_in, IsAt, IsNowhere};

use shard_names::{Alias, Tablet};
use tablet_manager::Manager;

fn is_of(manager: &Manager, alias: &Alias) -> bool
    ensures { result ≡ alias_eq manager.now.me.alias alias.now }
{
    manager.me().alias == *alias
}

fn place_at(managers: &[Manager], alias: &Alias) -> Option<usize>
    ensures { result ≡ position (λ m. alias_eq m.me.alias alias.now) managers.now }
{
    managers.iter().position(|manager| is_of(manager, alias))
}

/// The place of the tablet with this alias, from 0 on.
pub fn find_manager(managers: &[Manager], alias: &Alias) -> Option<usize>
    ensures { MatchOption result (IsNowhere managers.now alias.now) (λ k. (k < length managers.now) × IsAt managers.now alias.now k) }
{
    place_at(managers, alias)
}

/// The manager of this alias. A tablet that is none of the shard's has none, and the state of one to which nothing has happened.
pub fn manager_of<'a>(managers: &'a [Manager], alias: &Alias) -> Option<&'a Manager>
    ensures manager { option_copied result ≡ manager_of managers.now alias.now }
    ensures state { state_in (option_copied result) ≡ state_at managers.now alias.now }
{
    match find_manager(managers, alias) {
        Some(at) => Some(&managers[at]),
        None => None,
    }
}

/// The tablet with this alias.
pub fn tablet_of(managers: &[Manager], alias: &Alias) -> Option<Tablet>
    ensures { result ≡ tablet_of (tablets_of managers.now) alias.now }
{
    match find_manager(managers, alias) {
        Some(at) => Some(*managers[at].me()),
        None => None,
    }
}

/// Whether the tablet is down. One that is none of the shard's is not.
pub fn is_down(managers: &[Manager], alias: &Alias) -> bool
    ensures { result ≡ is_down (state_at managers.now alias.now).stand }
{
    match manager_of(managers, alias) {
        Some(manager) => manager.stand().is_down(),
        None => false,
    }
}
