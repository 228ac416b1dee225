//! What the course of a `vtorc` promises. The functions do nothing: each one's contract is a law.

ghost use Rattle.recovery_loop.specs.WatchExamples.{PrimaryIsReplaced, PrimaryIsElected, ReplicasAreRepaired, FirstRefusalIsLast, LockIsTaken, NothingIsAmiss, WaitsForStatuses};
ghost use Rattle.recovery_loop.specs.Decided.{LeavesForGood, EmergencyUndoesNothing};
ghost use Rattle.recovery_loop.specs.WatchLaws.{WatchIsStable, WatchIsSound};

/// Once a `vtorc` does not wait, what comes of its calls later changes nothing of what it is to do. Each Promote that it sends has its evidence in
/// what it did. What it ends with are the problems by what all tablets said of themselves, and what came of the first thing that helps, each line
/// with its cause in what it did. It is never refused itself.
pub fn vtorc_is_lawful()
    ensures stable { WatchIsStable }
    ensures sound { WatchIsSound }
{}

/// What a `vtorc` demands along courses that were played by hand.
pub fn watches_are_played()
    ensures primary_is_replaced { PrimaryIsReplaced }
    ensures primary_is_elected { PrimaryIsElected }
    ensures replicas_are_repaired { ReplicasAreRepaired }
    ensures first_refusal_is_last { FirstRefusalIsLast }
    ensures lock_is_taken { LockIsTaken }
    ensures nothing_is_amiss { NothingIsAmiss }
    ensures waits_for_statuses { WaitsForStatuses }
{}

/// A command that has decided how it ends goes on leaving, with the same answer, whatever comes of its calls later: it sends nothing any more.
pub fn command_leaves_for_good()
    ensures { LeavesForGood }
{}

/// An `EmergencyReparentShard` that is refused has undone nothing, and has tried no undo.
pub fn emergency_undoes_nothing()
    ensures { EmergencyUndoesNothing }
{}
