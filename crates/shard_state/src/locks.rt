//! The lock, the intents and the record: what a command may do with them, and what it is answered.

ghost use Rattle.std.specs.Prelude.{◌≡◌, ◌<◌, ◌-◌, ◌^◌, nat_lt, false};
ghost use Rattle.std.specs.List.{list_any};
ghost use Rattle.shard_calls.specs.World.{numbered, if_open};
ghost use Rattle.shard_calls.specs.Evidence.{is_alias_of, intends, is_first};
ghost use Rattle.shard_calls.specs.Locks.{took_nothing, by_term, may_record};

use crate::lookups::open_command;
use shard_calls::CommandState;
use shard_names::Alias;
use topo_lock::{Intent, Topo};

/// Whether the command of this number is open, and has not taken the lock.
pub fn took_nothing(commands: &[CommandState], command: u64) -> bool
    ensures { result ≡ took_nothing (if_open (numbered commands.now command)) }
{
    match open_command(commands, command) {
        Some(state) => state.term.is_none(),
        None => false,
    }
}

/// Whether the intent names the tablet.
pub fn is_alias_of(intent: &Option<Intent>, alias: &Alias) -> bool
    ensures { result ≡ is_alias_of intent.now alias.now }
{
    match intent {
        Some(intent) => intent.alias == *alias,
        None => false,
    }
}

/// Whether a command of this term may record the tablet: where it holds the lock, the last intent is to name it.
pub fn may_record(topo: &Topo, alias: &Alias, term: Option<u64>) -> bool
    ensures { result ≡ by_term term false (may_record topo.now.topology alias.now) }
{
    match term {
        Some(term) => !topo.is_held_in(term) || is_alias_of(&topo.last_intent(), alias),
        None => false,
    }
}

/// Whether the term intends the tablet. It costs the steps from the last intent back to that of the term.
pub fn intends(topo: &Topo, term: u64, alias: &Alias) -> bool
    ensures { result ≡ intends topo.now.topology term alias.now }
{
    is_alias_of(&topo.intent_of(term), alias)
}

fn has_earlier(intents: &[Intent], term: u64) -> bool
    ensures { result ≡ list_any (λ i. nat_lt i.term term) intents.now }
{
    intents.iter().any(|intent| intent.term < term)
}

/// Whether no earlier term intends anything. It costs at most a walk over the intents.
pub fn is_first(topo: &Topo, term: u64) -> bool
    ensures { result ≡ is_first topo.now.topology term }
{
    !has_earlier(topo.intents(), term)
}
