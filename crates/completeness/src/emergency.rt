//! What holds of emergencies in every history. The function does nothing: its contract is a law.

ghost use Rattle.shard_calls.specs.RunLaws.{OfEveryRun};
ghost use Rattle.completeness.specs.Refused.{RefusedUndoesNothing};

/// In a history in which commands follow their courses, as `step_words` promises, an `EmergencyReparentShard` that is
/// refused makes nothing but its Release and its End from the moment at which that is decided: it sends no call, and
/// changes no tablet and no message. A call that it sent before may still come.
pub fn refused_emergency_undoes_nothing()
    ensures { OfEveryRun RefusedUndoesNothing }
{}
