use crate::Alias;
use shard_base::Text;
use uuid::Uuid;

/// The name of an actor: the one who gives commands.
pub type Name = Text<16>;

/// What a tablet is declared to be.
#[derive(Clone, Copy, Debug, PartialEq, Eq)]
pub enum TabletType {
    /// It may be promoted.
    Replica,
    /// It serves reads alone.
    Rdonly,
    /// It waits to replace another tablet.
    Spare,
}

/// How fit a tablet is to be promoted.
#[derive(Clone, Copy, Debug, PartialEq, Eq)]
pub enum PromotionRule {
    Must,
    Prefer,
    Neutral,
    PreferNot,
    MustNot,
}

/// A tablet of the shard: its name, the identity of its server, and its declared type.
#[derive(Clone, Copy, PartialEq, Eq)]
pub struct Tablet {
    pub alias: Alias,
    pub server: Uuid,
    pub kind: TabletType,
}
