//! What holds of every history of the shard machine. The functions do nothing: each one's contract is a law.

ghost use Rattle.shard_calls.specs.Promotions.{OnePromotion, PromotesIntended, KeepsTold};
ghost use Rattle.shard_calls.specs.Answered.{ActsAreSteps, AnswersHaveCauses, OutcomesAreSteps};
ghost use Rattle.shard_calls.specs.RunLaws.{OfEveryRun, TabletsMove, TopologyMoves, TabletsAreSound, LogsOnlyGrow, TermNeverFalls, OneIntent, OfEveryShard, OneEntry, LogsAreClosed, AcksAreHeld, NotedIsHeld, ToldIsAccepted, NotToldIsLate};

/// Each step changes each tablet, and the topology, by one move.
pub fn each_step_is_a_move()
    ensures tablets { OfEveryRun TabletsMove }
    ensures topology { OfEveryRun TopologyMoves }
{}

/// A log only grows at its end.
pub fn logs_grow_at_their_ends()
    ensures { OfEveryRun LogsOnlyGrow }
{}

/// The rows in each log are of terms that are promised, and each tablet stands as it promised.
pub fn tablets_stay_sound()
    ensures { OfEveryRun TabletsAreSound }
{}

/// The term of the topology never falls.
pub fn term_of_topology_never_falls()
    ensures { OfEveryRun TermNeverFalls }
{}

/// Each term intends one tablet at most.
pub fn one_intent_in_a_term()
    ensures { OfEveryRun OneIntent }
{}

/// Each term promotes once at most, and then the tablet that it intends.
pub fn one_promotion_in_a_term()
    ensures once { OfEveryRun OnePromotion }
    ensures intended { OfEveryRun PromotesIntended }
{}

/// What an answer tells is in the log of its tablet, for good.
pub fn told_is_kept()
    ensures { OfEveryRun KeepsTold }
{}

/// What two logs have of one transaction is one entry.
pub fn each_transaction_is_one_entry()
    ensures { OfEveryShard OneEntry }
{}

/// What stands before the row of a term, in any log, has all that the promoted tablet had when it was promoted.
pub fn logs_are_closed()
    ensures { OfEveryShard LogsAreClosed }
{}

/// An acknowledgement of an index says that its sender has so many entries of its receiver's log; and of each tablet so much is there
/// as a primary has noted.
pub fn acknowledged_is_held()
    ensures acks { OfEveryShard AcksAreHeld }
    ensures noted { OfEveryShard NotedIsHeld }
{}

/// What is told in a term is held by as many tablets as the durability policy asks of the term's primary, which stands where it is
/// told; and that a row is not told is said only once the moment has come until which the call waits.
pub fn told_is_accepted()
    ensures told { OfEveryShard ToldIsAccepted }
    ensures not_told { OfEveryRun NotToldIsLate }
{}

/// Each answer of a command has its cause; and what causes are read off is what the steps show: what a command did, and what first
/// settled each of its calls.
pub fn each_answer_has_its_cause()
    ensures causes { OfEveryRun AnswersHaveCauses }
    ensures acts { OfEveryRun ActsAreSteps }
    ensures outcomes { OfEveryRun OutcomesAreSteps }
{}
