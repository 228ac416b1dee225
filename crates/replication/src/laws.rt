//! What holds of acknowledgements, and of told indexes under every policy. The functions do nothing: each one's contract is a law.

ghost use Rattle.replication.specs.Laws.{KeepsGreatest, MoreStaysTold, AckStaysTold, LowerIsTold, NoneTellsAll, NoAckerChangesNothing, OwnAckChangesNothing, ToldIsElsewhere};

/// After any acknowledgements a tablet's index is the greatest that it acknowledged.
pub fn keeps_the_greatest()
    ensures { KeepsGreatest }
{}

/// An index that is told stays told when more is acknowledged.
pub fn stays_told()
    ensures more { MoreStaysTold }
    ensures ack { AckStaysTold }
{}

/// Where an index is told, every lower one is.
pub fn lower_is_told()
    ensures { LowerIsTold }
{}

/// Under the policy `none` every index is told.
pub fn none_tells_all()
    ensures { NoneTellsAll }
{}

/// An acknowledgement of a tablet that is no acker of the primary changes nothing of what is told.
pub fn ack_of_no_acker_changes_nothing()
    ensures { NoAckerChangesNothing }
{}

/// The primary's own acknowledgement changes nothing of what is told.
pub fn own_ack_changes_nothing()
    ensures { OwnAckChangesNothing }
{}

/// Under a policy that asks for acknowledgements, what is told was acknowledged by another tablet than the primary.
pub fn told_is_elsewhere()
    ensures { ToldIsElsewhere }
{}
