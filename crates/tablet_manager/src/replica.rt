//! What a replica takes of what it is sent.

ghost use Rattle.std.specs.Prelude.{◌≡◌, ◌<◌, ◌+◌, ◌-◌, ◌^◌, Some, None, if◌then◌else◌};
ghost use Rattle.shard_calls.specs.Stands.{takes_from, waits_for};

use replication::Stream;
use shard_calls::Stand;
use shard_names::Alias;

/// How the tablet stands once it has taken what was sent, if its stream takes it: what `from` sent in this term to one that waits at
/// `after`, and what has this index in the sender's log.
#[tactic(auto, using(crate::proofs::StreamLemmas::taken_is_awaited))]
pub(crate) fn stand_behind(
    stand: &Stand,
    from: &Alias,
    term: u64,
    after: u64,
    index: u64,
) -> Option<Stand>
    requires { index < 2 ^ 64 - 1 }
    ensures { result ≡ if takes_from stand.now from.now term after then Some (waits_for stand.now (index + 1)) else None }
{
    match stand {
        Stand::Replica {
            source,
            term: of,
            next,
        } => {
            let mut stream = Stream {
                source: *source,
                term: *of,
                next: *next,
            };
            if !stream.accept(from, term, after, index) {
                return None;
            }
            Some(Stand::Replica {
                source: stream.source,
                term: stream.term,
                next: stream.next,
            })
        }
        _ => None,
    }
}
