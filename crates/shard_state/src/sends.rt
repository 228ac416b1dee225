//! Whether a command may send a call.

ghost use Rattle.std.specs.Prelude.{◌≡◌, ◌&&◌, nat_le, not};
ghost use Rattle.shard_names.specs.Tablets.{alias_eq, is_declared};
ghost use Rattle.shard_calls.specs.World.{numbered, if_open};
ghost use Rattle.shard_calls.specs.Deliveries.{asks_status, may_ask_in, may_send};
ghost use Rattle.shard_state.specs.State.{data_of, config_in, seen};

use crate::Fields;
use crate::declared::is_declared;
use crate::evidence::has_evidence;
use crate::lookups::open_command;
use shard_calls::{Call, CommandState};
use shard_names::Alias;

/// Where the year 10000 begins, in milliseconds since the start of 1970.
const END_OF_TIME: u64 = 253402300800000;

fn may_follow(fields: &Fields, alias: &Alias, source: &Alias, stand: u64, term: u64) -> bool
    ensures { result ≡ (is_declared (config_in (data_of fields.now)).tablets source.now && not (alias_eq source.now alias.now) && nat_le stand term) }
{
    is_declared(&fields.managers, source) && *source != *alias && stand <= term
}

fn may_ask_in(fields: &Fields, command: u64, alias: &Alias, call: &Call, term: u64) -> bool
    ensures { result ≡ may_ask_in (config_in (data_of fields.now)) (seen (data_of fields.now)) command alias.now call.now term }
{
    match call {
        Call::Status => true,
        Call::Stop => true,
        Call::Demote => true,
        Call::Promote { position } => has_evidence(fields, command, term, alias, position),
        Call::SetSource { source, stand, .. } => may_follow(fields, alias, source, *stand, term),
        Call::Feed => true,
        Call::WaitFor { until, .. } => *until < END_OF_TIME,
        Call::WaitTold { until } => *until < END_OF_TIME,
    }
}

fn asks_status(call: &Call) -> bool
    ensures { result ≡ asks_status call.now }
{
    matches!(call, Call::Status)
}

/// Whether the open command of this number may send this call to the tablet.
pub fn may_send(fields: &Fields, command: u64, alias: &Alias, call: &Call) -> bool
    ensures { result ≡ may_send (config_in (data_of fields.now)) (seen (data_of fields.now)) command alias.now call.now (if_open (numbered fields.now.commands.items command)) }
{
    match open_command(&fields.commands, command) {
        Some(state) => match state.term {
            Some(term) => may_ask_in(fields, command, alias, call, term),
            None => asks_status(call),
        },
        None => false,
    }
}
