//! What holds of every tablet, and what is amiss with some. The functions do nothing: each one's contract is a law.

ghost use Rattle.shard_calls.specs.Moves.{TabletMove, TabletMoves};
ghost use Rattle.shard_calls.specs.Laws.{PromiseNeverFalls, SeenNeverFalls, LogOnlyGrows, KeepsSound, AlwaysSound, AreMoves, RefusalChangesSeenAlone, StaleTermIsRefused};
ghost use Rattle.shard_calls.specs.AnalysisExamples.{PrimariesAreAnalysed, OthersAreAnalysed};

/// A promise never falls.
pub fn promise_never_falls()
    ensures step { PromiseNeverFalls TabletMove }
    ensures steps { PromiseNeverFalls TabletMoves }
{}

/// The seen term never falls.
pub fn seen_never_falls()
    ensures step { SeenNeverFalls TabletMove }
    ensures steps { SeenNeverFalls TabletMoves }
{}

/// A log only grows at its end.
pub fn log_only_grows()
    ensures step { LogOnlyGrows TabletMove }
    ensures steps { LogOnlyGrows TabletMoves }
{}

/// The rows in a log are of terms that are promised, a stand is in the promised term, and a primary has the row of its term.
pub fn rows_are_promised()
    ensures step { KeepsSound TabletMove }
    ensures steps { KeepsSound TabletMoves }
    ensures always { AlwaysSound }
{}

/// What calls, entries, acknowledgements, writes, crashes and restarts do to a tablet is one move each.
pub fn steps_are_moves()
    ensures { AreMoves }
{}

/// A refused call changes at most the seen term.
pub fn refusal_changes_seen_alone()
    ensures { RefusalChangesSeenAlone }
{}

/// A term below the seen one is refused, and changes nothing.
pub fn stale_term_is_refused()
    ensures { StaleTermIsRefused }
{}

/// What is amiss with the tablets of small shards: each analysis, of a primary and of the others.
pub fn worked_analyses()
    ensures primaries { PrimariesAreAnalysed }
    ensures others { OthersAreAnalysed }
{}
