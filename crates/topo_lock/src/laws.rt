ghost use Rattle.topo_lock.specs.Moves.{TopoMove, TopoMoves};
ghost use Rattle.topo_lock.specs.Laws.{TermNeverFalls, IntentsStay, IntentOfTermStays, KeepsEachTermOnce, KeepsTermsWithin, KeepsTermsRise, PastTermsAreSettled, LostLockStaysLost, OneIntentATerm, IntentsAreInOrder, LastIntentIsGreatest, OtherTermsIntendNothing};
ghost use Rattle.topo_lock.specs.Laws.{MarksStay, KeepsMarksRise, MarksAreInOrder, OneMarkATablet};

/// The term of a topology never falls.
pub fn term_rises()
    ensures step { TermNeverFalls TopoMove }
    ensures steps { TermNeverFalls TopoMoves }
{}

/// A lock that was lost, by a lapse or a release, is never held in its term again: its holder is found out for good.
pub fn lost_lock_stays_lost()
    ensures step { LostLockStaysLost TopoMove }
    ensures steps { LostLockStaysLost TopoMoves }
{}

/// An intent, once there, stays.
pub fn intent_stays()
    ensures step { IntentsStay TopoMove }
    ensures steps { IntentsStay TopoMoves }
    ensures of_term_step { IntentOfTermStays TopoMove }
    ensures of_term_steps { IntentOfTermStays TopoMoves }
{}

/// No two intents have one term.
pub fn one_intent_a_term()
    ensures step { KeepsEachTermOnce TopoMove }
    ensures steps { KeepsEachTermOnce TopoMoves }
    ensures always { OneIntentATerm }
{}

/// The terms of the intents rise, so the last one has the greatest, and none is above the topology's term.
pub fn intents_are_in_order()
    ensures within_step { KeepsTermsWithin TopoMove }
    ensures within_steps { KeepsTermsWithin TopoMoves }
    ensures rise_step { KeepsTermsRise TopoMove }
    ensures rise_steps { KeepsTermsRise TopoMoves }
    ensures always { IntentsAreInOrder }
    ensures last { LastIntentIsGreatest }
{}

/// Only the topology's own term can be intended in.
pub fn other_terms_intend_nothing()
    ensures { OtherTermsIntendNothing }
{}

/// Once the topology is past a term, what that term intends is settled: one alias, or none for ever.
pub fn past_terms_are_settled()
    ensures step { PastTermsAreSettled TopoMove }
    ensures steps { PastTermsAreSettled TopoMoves }
{}

/// A mark, once there, stays: a drained tablet is drained for good.
pub fn mark_stays()
    ensures step { MarksStay TopoMove }
    ensures steps { MarksStay TopoMoves }
{}

/// The marks are in alias order, and none stands twice.
pub fn marks_are_in_order()
    ensures rise_step { KeepsMarksRise TopoMove }
    ensures rise_steps { KeepsMarksRise TopoMoves }
    ensures always { MarksAreInOrder }
    ensures once { OneMarkATablet }
{}
