ghost use Rattle.std.specs.Prelude.{◌≡◌, ◌<◌, ◌≤◌, ◌↔◌, not, length, find, IsTrue, IsOk, IfErr, IsNone, IfSome};
ghost use Rattle.std.specs.Option.{option_copied};
ghost use Rattle.shard_names.specs.Tablets.{is_among, is_declared, tablet_of};
ghost use Rattle.durability.specs.Rules.{is_eligible};
ghost use Rattle.durability.specs.Sets.{ackers_in, TestIsAccepted, Revokes, Establishes, IsFirstUnrevoked};
ghost use Rattle.durability.specs.Counting.{is_revoked, is_unrevoked, CountingIsRevocation, CountingIsEstablishing};

use crate::Policy;
use shard_names::{Alias, PromotionRule, Tablet};
use thiserror::Error;

/// Too few of a tablet's ackers are reached: `have`, where its writes wait for `need`.
#[derive(Clone, Copy, Debug, PartialEq, Eq, Error)]
#[error("{have} of {need} ackers are reached")]
pub struct Short {
    pub have: u32,
    pub need: u32,
}

/// For every policy: a set is accepted for a primary exactly where it has the primary, and at least as many of the primary's
/// ackers as the policy asks for.
pub fn counting_is_acceptance()
    ensures { TestIsAccepted }
{}

/// For every policy: a set meets each set that is accepted for a primary exactly where the primary is in it, or fewer of the
/// primary's ackers are outside it than the policy asks for.
pub fn counting_is_revocation()
    ensures { CountingIsRevocation }
{}

/// For every policy: a set has all of some set that is accepted for a tablet exactly where it has the tablet and as many of
/// its ackers as the policy asks for.
pub fn counting_is_establishing()
    ensures { CountingIsEstablishing }
{}

pub(crate) fn is_among(aliases: &[Alias], alias: &Alias) -> bool
    ensures { result ≡ is_among aliases.now alias.now }
{
    aliases.iter().any(|a| alias == a)
}

pub(crate) fn find_tablet<'a>(tablets: &'a [Tablet], alias: &Alias) -> Option<&'a Tablet>
    ensures { option_copied result ≡ tablet_of tablets.now alias.now }
{
    tablets.iter().find(|t| t.alias == *alias)
}

/// Whether the policy lets the tablet be promoted: its rule for it is another than `must_not`. It takes no memory.
pub fn is_eligible<P: Policy>(policy: &P, tablet: &Tablet) -> bool
    ensures { result ≡ is_eligible (P.rules policy.now) tablet.now }
{
    !matches!(policy.rule(tablet), PromotionRule::MustNot)
}

fn count_reached_ackers<P: Policy>(
    policy: &P,
    tablets: &[Tablet],
    primary: &Tablet,
    reached: &[Alias],
) -> usize
    ensures value { result ≡ ackers_in (P.rules policy.now) tablets.now primary.now (is_among reached.now) }
    ensures within { result ≤ length tablets.now }
{
    tablets
        .iter()
        .filter(|t| policy.is_acker(primary, t) && is_among(reached, &t.alias))
        .count()
}

fn count_unreached_ackers<P: Policy>(
    policy: &P,
    tablets: &[Tablet],
    primary: &Tablet,
    reached: &[Alias],
) -> usize
    ensures { result
        ≡ ackers_in (P.rules policy.now) tablets.now primary.now (λ a. not (is_among reached.now a)) }
{
    tablets
        .iter()
        .filter(|t| policy.is_acker(primary, t) && !is_among(reached, &t.alias))
        .count()
}

fn is_revoked<P: Policy>(
    policy: &P,
    tablets: &[Tablet],
    primary: &Tablet,
    reached: &[Alias],
) -> bool
    ensures { result ≡ is_revoked (P.rules policy.now) tablets.now (is_among reached.now) primary.now }
{
    is_among(reached, &primary.alias)
        || count_unreached_ackers(policy, tablets, primary, reached) < policy.acks(primary) as usize
}

#[tactic(auto, unfolding(crate::specs::Counting::is_unrevoked))]
fn is_unrevoked<P: Policy>(
    policy: &P,
    tablets: &[Tablet],
    tablet: &Tablet,
    reached: &[Alias],
) -> bool
    ensures { result ≡ is_unrevoked (P.rules policy.now) tablets.now (is_among reached.now) tablet.now }
{
    is_eligible(policy, tablet) && !is_revoked(policy, tablets, tablet, reached)
}

fn find_unrevoked<'a, P: Policy>(
    policy: &P,
    tablets: &'a [Tablet],
    reached: &[Alias],
) -> Option<&'a Tablet>
    ensures { option_copied result
        ≡ find (is_unrevoked (P.rules policy.now) tablets.now (is_among reached.now)) tablets.now }
{
    tablets
        .iter()
        .find(|t| is_unrevoked(policy, tablets, t, reached))
}

/// The first tablet, in the order of the list, that may be promoted and could still have a write accepted without any of the
/// reached tablets. None where the reached tablets revoke every tablet that may be promoted: then no primary of the past can
/// commit anything more without them. A shard's tablets are listed in the order of their aliases. It takes no memory.
pub fn first_unrevoked<P: Policy>(
    policy: &P,
    tablets: &[Tablet],
    reached: &[Alias],
) -> Option<Alias>
    ensures revoked { IsNone result
        ↔ Revokes (P.rules policy.now) tablets.now (is_among reached.now) }
    ensures first { IfSome result
        (IsFirstUnrevoked (P.rules policy.now) tablets.now (is_among reached.now)) }
{
    let tablet = find_unrevoked(policy, tablets, reached)?;
    Some(tablet.alias)
}

/// Whether the reached tablets have all that the chosen one, which is among them, needs as a primary: itself and enough of
/// its ackers. Else how many of its ackers are reached, and how many it needs. It takes no memory.
pub fn can_establish<P: Policy>(
    policy: &P,
    tablets: &[Tablet],
    chosen: &Alias,
    reached: &[Alias],
) -> Result<(), Short>
    requires few { length tablets.now ≤ 32 }
    requires declared { IsTrue (is_declared tablets.now chosen.now) }
    requires in_reach { IsTrue (is_among reached.now chosen.now) }

    ensures ok { IfSome (tablet_of tablets.now chosen.now) (λ t.
        IsOk result ↔ Establishes (P.rules policy.now) tablets.now (is_among reached.now) t) }
    ensures have { IfErr result (λ short. IfSome (tablet_of tablets.now chosen.now) (λ t.
        short.have ≡ ackers_in (P.rules policy.now) tablets.now t (is_among reached.now))) }
    ensures need { IfErr result (λ short. IfSome (tablet_of tablets.now chosen.now) (λ t.
        short.need ≡ (P.rules policy.now).acks t)) }
    ensures below { IfErr result (λ short. short.have < short.need) }
{
    let Some(tablet) = find_tablet(tablets, chosen) else {
        unreachable!()
    };
    let have = count_reached_ackers(policy, tablets, tablet, reached) as u32;
    let need = policy.acks(tablet);
    if have < need {
        return Err(Short { have, need });
    }
    Ok(())
}
