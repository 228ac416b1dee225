ghost use Rattle.std.specs.Prelude.{◌≡◌, ◌&&◌, nat_le, length, filter};
ghost use Rattle.std.specs.List.{zip};
ghost use Rattle.std.specs.Option.{option_copied};
ghost use Rattle.shard_names.specs.Tablets.{tablet_of};

use durability::Policy;
use shard_names::{Alias, Tablet};

pub(crate) fn find_tablet<'a>(tablets: &'a [Tablet], alias: &Alias) -> Option<&'a Tablet>
    ensures { option_copied result ≡ tablet_of tablets.now alias.now }
{
    tablets.iter().find(|t| t.alias == *alias)
}

/// How many ackers of the primary acknowledged at least this index.
fn count_ackers<P: Policy>(
    policy: &P,
    tablets: &[Tablet],
    indexes: &[u64],
    primary: &Tablet,
    index: u64,
) -> usize
    ensures { result
        ≡ length (filter (λ p. (P.rules policy.now).is_acker primary.now p.0 && nat_le index p.1) (zip tablets.now indexes.now)) }
{
    tablets
        .iter()
        .zip(indexes)
        .filter(|(t, acked)| policy.is_acker(primary, t) && index <= **acked)
        .count()
}

/// Whether these are as many as the policy asks for.
pub(crate) fn are_enough<P: Policy>(
    policy: &P,
    tablets: &[Tablet],
    indexes: &[u64],
    primary: &Tablet,
    index: u64,
) -> bool
    ensures { result
        ≡ nat_le ((P.rules policy.now).acks primary.now)
        (length (filter (λ p. (P.rules policy.now).is_acker primary.now p.0 && nat_le index p.1) (zip tablets.now indexes.now))) }
{
    let need = policy.acks(primary) as usize;
    need <= count_ackers(policy, tablets, indexes, primary, index)
}
