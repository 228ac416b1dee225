ghost use Rattle.std.specs.Prelude.{◌≡◌, ◌≢◌, ◌↔◌, find, IsErr};
ghost use Rattle.std.specs.Str.{bytes_eq};
ghost use Rattle.durability.specs.Rules.{Rules, IsLawful};
ghost use Rattle.durability.specs.Policies.{rules_of, policy_name, is_other, is_in_other_cell, is_replica, is_replica_or_rdonly};
ghost use Rattle.durability.specs.Lawful.{five_lawful};

use shard_names::{PromotionRule, Tablet, TabletType};
use thiserror::Error;

/// A durability policy: how many tablets must acknowledge a primary's write, which of them count, and how fit each tablet
/// is to be promoted. No tablet is its own acker, and each answer depends on the policy and the tablets given alone.
pub trait Policy {
    ghost rules: { Self → Rules };

    /// How many ackers must have a write of this primary before it is committed.
    fn acks(&self, primary: &Tablet) -> u32
        ensures { result ≡ (rules self.now).acks primary.now };

    /// Whether the other tablet's acknowledgement counts for this primary.
    fn is_acker(&self, primary: &Tablet, other: &Tablet) -> bool
        ensures { result ≡ (rules self.now).is_acker primary.now other.now };

    /// How fit the tablet is to be promoted.
    fn rule(&self, tablet: &Tablet) -> PromotionRule
        ensures { result ≡ (rules self.now).rule tablet.now };

    ghost lawful: { (policy : Self) → IsLawful (rules policy) };
}

/// The five policies of the Vitess manual.
#[derive(Clone, Copy, Debug, PartialEq, Eq)]
pub enum Durability {
    /// No acknowledgement is needed.
    None,
    /// One acknowledgement of a replica.
    SemiSync,
    /// One acknowledgement of a replica in another cell.
    CrossCell,
    /// One acknowledgement of a replica or of a read-only tablet.
    SemiSyncWithRdonlyAck,
    /// One acknowledgement of a replica or of a read-only tablet, in another cell.
    CrossCellWithRdonlyAck,
}

/// No policy has this name.
#[derive(Clone, Copy, Debug, PartialEq, Eq, Error)]
#[error("no durability policy has this name")]
pub struct UnknownPolicy;

fn is_other(primary: &Tablet, other: &Tablet) -> bool
    ensures { result ≡ is_other primary.now other.now }
{
    primary.alias != other.alias
}

fn is_in_other_cell(primary: &Tablet, other: &Tablet) -> bool
    ensures { result ≡ is_in_other_cell primary.now other.now }
{
    primary.alias.cell != other.alias.cell
}

fn is_replica(tablet: &Tablet) -> bool
    ensures { result ≡ is_replica tablet.now }
{
    matches!(tablet.kind, TabletType::Replica)
}

fn is_replica_or_rdonly(tablet: &Tablet) -> bool
    ensures { result ≡ is_replica_or_rdonly tablet.now }
{
    matches!(tablet.kind, TabletType::Replica | TabletType::Rdonly)
}

impl Policy for Durability {
    ghost rules = { rules_of };

    ghost lawful = { five_lawful };

    fn acks(&self, _primary: &Tablet) -> u32 {
        match self {
            Durability::None => 0,
            Durability::SemiSync
            | Durability::CrossCell
            | Durability::SemiSyncWithRdonlyAck
            | Durability::CrossCellWithRdonlyAck => 1,
        }
    }

    fn is_acker(&self, primary: &Tablet, other: &Tablet) -> bool {
        match self {
            Durability::None => false,
            Durability::SemiSync => is_other(primary, other) && is_replica(other),
            Durability::CrossCell => is_in_other_cell(primary, other) && is_replica(other),
            Durability::SemiSyncWithRdonlyAck => {
                is_other(primary, other) && is_replica_or_rdonly(other)
            }
            Durability::CrossCellWithRdonlyAck => {
                is_in_other_cell(primary, other) && is_replica_or_rdonly(other)
            }
        }
    }

    fn rule(&self, tablet: &Tablet) -> PromotionRule {
        match tablet.kind {
            TabletType::Replica => PromotionRule::Neutral,
            TabletType::Rdonly | TabletType::Spare => PromotionRule::MustNot,
        }
    }
}

pub(crate) const POLICIES: [Durability; 5] = [
    Durability::None,
    Durability::SemiSync,
    Durability::CrossCell,
    Durability::SemiSyncWithRdonlyAck,
    Durability::CrossCellWithRdonlyAck,
];

impl Durability {
    /// The policy's name in the Vitess manual.
    pub fn name(&self) -> &'static [u8]
        ensures { result.now ≡ policy_name self.now }
    {
        match self {
            Durability::None => b"none",
            Durability::SemiSync => b"semi_sync",
            Durability::CrossCell => b"cross_cell",
            Durability::SemiSyncWithRdonlyAck => b"semi_sync_with_rdonly_ack",
            Durability::CrossCellWithRdonlyAck => b"cross_cell_with_rdonly_ack",
        }
    }
}

fn find_policy(name: &[u8]) -> Option<Durability>
    ensures { result ≡ find (λ policy. bytes_eq (policy_name policy) name.now) POLICIES }
{
    POLICIES
        .iter()
        .copied()
        .find(|policy| policy.name() == name)
}

/// The policy of this name. It takes no memory.
pub fn read_policy(name: &[u8]) -> Result<Durability, UnknownPolicy>
    ensures named { (policy : Durability) → (result ≡ Ok policy) ↔ (name.now ≡ policy_name policy) }
    ensures unknown { IsErr result ↔ ((policy : Durability) → name.now ≢ policy_name policy) }
{
    find_policy(name).ok_or(UnknownPolicy)
}
