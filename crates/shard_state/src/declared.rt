//! What is declared: tablets, those that may be promoted, what a command names, and the ends of links.

ghost use Rattle.std.specs.Prelude.{◌≡◌};
ghost use Rattle.std.specs.List.{find};
ghost use Rattle.std.specs.Option.{option_copied};
ghost use Rattle.shard_names.specs.Tablets.{alias_eq, tablet_of, is_declared};
ghost use Rattle.shard_calls.specs.World.{is_eligible_alias};
ghost use Rattle.shard_calls.specs.Begins.{names_declared};
ghost use Rattle.shard_calls.specs.Table.{is_side, is_control, is_link};
ghost use Rattle.shard_state.specs.State.{tablets_of, data_of, config_in};

use crate::Fields;
use crate::tablets::tablet_of;
use durability::is_eligible;
use shard_calls::{Command, Side};
use shard_names::Alias;
use tablet_manager::Manager;

/// Whether the alias is declared. It costs the steps to it in the list of tablets.
pub fn is_declared(managers: &[Manager], alias: &Alias) -> bool
    ensures { result ≡ is_declared (tablets_of managers.now) alias.now }
{
    tablet_of(managers, alias).is_some()
}

/// Whether the alias is declared, and the policy lets its tablet be promoted. It costs the steps to it in the list of tablets.
pub fn is_eligible_alias(fields: &Fields, alias: &Alias) -> bool
    ensures { result ≡ is_eligible_alias (config_in (data_of fields.now)) alias.now }
{
    match tablet_of(&fields.managers, alias) {
        Some(tablet) => is_eligible(&fields.policy, &tablet),
        None => false,
    }
}

/// Whether the tablet that a command writes at or shows is declared.
pub fn names_declared(fields: &Fields, command: &Command) -> bool
    ensures { result ≡ names_declared (config_in (data_of fields.now)) command.now }
{
    match command {
        Command::Planned { .. } => true,
        Command::Emergency { .. } => true,
        Command::External { .. } => true,
        Command::Vtorc => true,
        Command::Write { to } => match to {
            Some(alias) => is_declared(&fields.managers, alias),
            None => true,
        },
        Command::Show { alias } => is_declared(&fields.managers, alias),
        Command::GetShard { .. } => true,
        Command::GetTablets { .. } => true,
    }
}

fn is_side(fields: &Fields, side: &Side) -> bool
    ensures { result ≡ is_side (config_in (data_of fields.now)) side.now }
{
    match side {
        Side::Control => true,
        Side::Tablet { alias } => is_declared(&fields.managers, alias),
    }
}

fn is_control(side: &Side) -> bool
    ensures { result ≡ is_control side.now }
{
    match side {
        Side::Control => true,
        Side::Tablet { .. } => false,
    }
}

/// Whether there is a link between the two: not of the commands' end with itself.
pub fn is_link(fields: &Fields, x: &Side, y: &Side) -> bool
    ensures { result ≡ is_link (config_in (data_of fields.now)) x.now y.now }
{
    is_side(fields, x) && is_side(fields, y) && !(is_control(x) && is_control(y))
}
