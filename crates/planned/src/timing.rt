//! Until when a call waits.

ghost use Rattle.std.specs.Prelude.{◌≡◌, ◌+◌, ◌≤◌, ◌^◌, true, MatchOption, None};
ghost use Rattle.shard_calls.specs.declared.call.Call.TheVariants as calls;
ghost use Rattle.planned.specs.Course.{timed};
ghost use Rattle.planned.specs.Late.{is_late};

use gtid_sets::GtidSet;
use shard_calls::Call;

fn too_late(position: GtidSet) -> Option<Call>
    ensures { result ≡ None }
{
    let _position = position;
    None
}

fn wait_for(now: u64, position: GtidSet, timeout: u64) -> Option<Call>
    ensures { MatchOption result (2 ^ 64 ≤ now + timeout) (λ call. call ≡ calls.WaitFor position (now + timeout)) }
{
    match now.checked_add(timeout) {
        Some(until) => Some(Call::WaitFor { position, until }),
        None => too_late(position),
    }
}

fn wait_told(now: u64, timeout: u64) -> Option<Call>
    ensures { MatchOption result (2 ^ 64 ≤ now + timeout) (λ call. call ≡ calls.WaitTold (now + timeout)) }
{
    let until = now.checked_add(timeout)?;
    Some(Call::WaitTold { until })
}

/// The call as it is made now, which waits so long from now on as its course says, if that ends while moments can be told.
#[tactic(auto, using(crate::proofs::LateLemmas::late_at))]
pub(crate) fn timed(now: u64, call: Call) -> Option<Call>
    ensures { MatchOption result (is_late (timed now call) ≡ true) (λ made. made ≡ timed now call) }
{
    match call {
        Call::WaitFor { position, until } => wait_for(now, position, until),
        Call::WaitTold { until } => wait_told(now, until),
        Call::Status => Some(Call::Status),
        Call::Stop => Some(Call::Stop),
        Call::Demote => Some(Call::Demote),
        Call::Promote { position } => Some(Call::Promote { position }),
        Call::SetSource {
            source,
            stand,
            position,
        } => Some(Call::SetSource {
            source,
            stand,
            position,
        }),
        Call::Feed => Some(Call::Feed),
    }
}
