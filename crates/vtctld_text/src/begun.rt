use shard_calls::Command;
use shard_names::Name;

/// A command that began, and the actor who gave it.
#[derive(Drop)]
pub struct Begun {
    pub actor: Name,
    pub command: Command,
}
