ghost use Rattle.std.specs.Prelude.{◌≡◌, ◌<◌, ◌≤◌, ◌+◌, ◌*◌, length, position};
ghost use Rattle.shard_names.specs.Tablets.{alias_eq};
ghost use Rattle.post.specs.Directions.{place_of, place_from, place_to, receiver};
ghost use Rattle.post.specs.Kept.{direction, direction_of, asked_by};

use shard_calls::Content;
use shard_names::Alias;

/// How many places have room: those of 32 tablets, of commands, and of strangers.
const STRIDE: usize = 34;

fn find(aliases: &[Alias], alias: &Alias) -> Option<usize>
    ensures { result ≡ position (λ x. alias_eq x alias.now) aliases.now }
{
    aliases.iter().position(|each| *each == *alias)
}

/// The place of a tablet, which costs the steps to it in the list of tablets.
pub(crate) fn place_of(aliases: &[Alias], alias: &Alias) -> usize
    ensures place { result ≡ place_of aliases.now alias.now }
    ensures within { result ≤ length aliases.now + 1 }
{
    match find(aliases, alias) {
        Some(at) => at + 1,
        None => aliases.len() + 1,
    }
}

fn place_from(aliases: &[Alias], content: &Content) -> usize
    ensures place { result ≡ place_from aliases.now content.now }
    ensures within { result ≤ length aliases.now + 1 }
{
    match content {
        Content::Asks { .. } => 0,
        Content::Answers { from, .. } => place_of(aliases, from),
        Content::Feeds { from, .. } => place_of(aliases, from),
        Content::Acks { from, .. } => place_of(aliases, from),
    }
}

fn place_to(aliases: &[Alias], content: &Content) -> usize
    ensures place { result ≡ place_to aliases.now content.now }
    ensures within { result ≤ length aliases.now + 1 }
{
    match content {
        Content::Asks { to, .. } => place_of(aliases, to),
        Content::Answers { .. } => 0,
        Content::Feeds { to, .. } => place_of(aliases, to),
        Content::Acks { to, .. } => place_of(aliases, to),
    }
}

/// How many directions there are between these tablets, commands and strangers.
pub(crate) fn count_of(tablets: usize) -> usize
    requires { tablets ≤ 32 }
    ensures { result ≡ (tablets + 2) * 34 }
{
    (tablets + 2) * STRIDE
}

/// The number of the direction between two places.
pub(crate) fn direction(from: usize, to: usize) -> usize
    requires { (from ≤ 33) × (to ≤ 33) }
    ensures { result ≡ direction from to }
{
    from * STRIDE + to
}

/// The number of the direction that a message takes.
pub(crate) fn direction_of(aliases: &[Alias], content: &Content) -> usize
    requires { length aliases.now ≤ 32 }
    ensures number { result ≡ direction_of aliases.now content.now }
    ensures within { result < (length aliases.now + 2) * 34 }
{
    let from = place_from(aliases, content);
    let to = place_to(aliases, content);
    direction(from, to)
}

/// Whom a message is for: the command that it answers by its number, or 0 for a tablet.
pub(crate) fn receiver(content: &Content) -> usize
    ensures { result ≡ receiver content.now }
{
    match content {
        Content::Asks { .. } => 0,
        Content::Answers { command, .. } => *command as usize,
        Content::Feeds { .. } => 0,
        Content::Acks { .. } => 0,
    }
}

/// The number of the call that a message answers, or 0.
pub(crate) fn asked_by(content: &Content) -> u64
    ensures { result ≡ asked_by content.now }
{
    match content {
        Content::Asks { .. } => 0,
        Content::Answers { asked, .. } => *asked,
        Content::Feeds { .. } => 0,
        Content::Acks { .. } => 0,
    }
}
