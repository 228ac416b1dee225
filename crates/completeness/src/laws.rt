//! What holds of a command that keeps the lock, in every history. The functions do nothing: their contracts are laws.

ghost use Rattle.shard_calls.specs.RunLaws.{OfEveryRun};
ghost use Rattle.completeness.specs.Kept.{KeptLockIsHeld};
ghost use Rattle.completeness.specs.Emergency.{EmergencyCompletes};
ghost use Rattle.completeness.specs.Planned.{PlannedCompletes};

/// While a command keeps the lock in its term, the lock is its own, no later term is there, and nothing is refused to
/// it for an older term.
pub fn kept_lock_is_held()
    ensures { OfEveryRun KeptLockIsHeld }
{}

/// A `PlannedReparentShard` that nothing hinders promotes a tablet, or finds nothing to do; only want of memory
/// refuses it. What hinders it is said premise by premise in `NothingHinders`: options that are refused, a lock that is
/// lost, no tablet left that can follow, a tablet that does not answer, goes down, has more than the old primary, or
/// answers too late.
pub fn planned_completes()
    ensures { OfEveryRun PlannedCompletes }
{}

/// An `EmergencyReparentShard` that nothing hinders promotes a tablet; only want of memory refuses it. What hinders it is
/// said premise by premise: options that are refused, a lock that is lost, an older primary that is not revoked, no tablet
/// ahead of all or none that can take over, one that has more than it, a tablet that does not answer, goes down, or answers
/// too late.
pub fn emergency_completes()
    ensures { OfEveryRun EmergencyCompletes }
{}
