//! The winner of tablets that stopped, by its alias, or that there is none.

ghost use Rattle.std.specs.Prelude.{◌≡◌, ◌≢◌, [], Some, None, option_map, IfOk, IfErr};
ghost use Rattle.gtid_sets.specs.Winner.{leading, winner, first_apart};
ghost use Rattle.errant.specs.Split.{pair_of, aliases_of};

use crate::ahead::{find_winner, first_apart};
use gtid_sets::Held;
use shard_names::Alias;
use thiserror::Error;

/// Of the tablets of the newest term neither of these two has all that the other has.
#[derive(Clone, Copy, Debug, PartialEq, Eq, Error)]
#[error("neither of two tablets has all that the other has")]
pub struct SplitBrain {
    pub a: Alias,
    pub b: Alias,
}

/// The tablet that is ahead of all: of those with the newest row of all, the first that has all that they have. Where there is none, the
/// first two of them of which neither has all that the other has. It takes no memory.
#[tactic(auto, using(crate::proofs::WinnerLemmas::split_is_there))]
pub fn winner(helds: &[Held]) -> Result<Alias, SplitBrain>
    requires { helds.now ≢ [] }
    ensures won { IfOk result (λ alias. option_map (λ h. h.alias) (winner helds.now) ≡ Some alias) }
    ensures none { IfErr result (λ split. winner helds.now ≡ None) }
    ensures split { IfErr result (λ split. aliases_of (first_apart (leading helds.now)) ≡ Some (split.a, split.b)) }
{
    if let Some(held) = find_winner(helds) {
        return Ok(held.alias);
    }
    let Some((a, b)) = first_apart(helds) else {
        unreachable!()
    };
    Err(SplitBrain {
        a: a.alias,
        b: b.alias,
    })
}
