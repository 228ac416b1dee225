//! Durability policies: which tablets must acknowledge a write, and what a set of reached tablets can keep a primary from.
#![tactic(auto)]

mod policy;
mod revocation;

pub use policy::{Durability, Policy, UnknownPolicy, read_policy};
pub use revocation::{
    Short, can_establish, counting_is_acceptance, counting_is_establishing, counting_is_revocation,
    first_unrevoked, is_eligible,
};

#[cfg(test)]
mod tests;
