//! What holds of tablets, messages and commands, in the network's own words. The functions do nothing: each one's contract is a law.

ghost use Rattle.shard_calls.specs.RunLaws.{OfEveryRun};
ghost use Rattle.shard_laws.specs.Marks.{MarksStay};
ghost use Rattle.shard_laws.specs.Network.{CutsAreAsSaid, GiveUpNamesTheFirst, NothingCrossesACut, NothingLostComes, WhoIsDownHearsNothing, WriteNumbersHaveNoGaps};
ghost use Rattle.shard_laws.specs.OneTablet.{LapsedIsFree, NoAcksAfter, PromotionCovers, SetSourceAgain};
ghost use Rattle.shard_laws.specs.Shown.{ShownBySteps};

/// A promotion to a row that was not there has the position that was asked for, or changes the seen term alone.
pub fn promotion_covers()
    ensures { PromotionCovers }
{}

/// A SetSource of the term in which the tablet is a replica changes the seen term alone.
pub fn set_source_again()
    ensures { SetSourceAgain }
{}

/// A promotion and a restart leave no acknowledgement.
pub fn no_acks_after()
    ensures { NoAcksAfter }
{}

/// A lapsed lock is held by nobody.
pub fn lapsed_is_free()
    ensures { LapsedIsFree }
{}

/// Over a link that is cut no message passes.
pub fn nothing_crosses_a_cut()
    ensures { OfEveryRun NothingCrossesACut }
{}

/// To a tablet that is down no message comes, and what does not come waits.
pub fn who_is_down_hears_nothing()
    ensures { OfEveryRun WhoIsDownHearsNothing }
{}

/// A Cut cuts the link between its ends, and a Mend makes it whole.
pub fn cuts_are_as_said()
    ensures { OfEveryRun CutsAreAsSaid }
{}

/// What a Lose loses is lost, and what is lost never comes.
pub fn nothing_lost_comes()
    ensures { OfEveryRun NothingLostComes }
{}

/// Who gives up a call names the first reason that holds.
pub fn give_up_names_the_first()
    ensures { OfEveryRun GiveUpNamesTheFirst }
{}

/// The writes of an actor are numbered without a gap, from 1 on.
pub fn write_numbers_have_no_gaps()
    ensures { OfEveryRun WriteNumbersHaveNoGaps }
{}

/// Each answer of a command is shown by the steps before it.
pub fn answers_are_shown()
    ensures { OfEveryRun ShownBySteps }
{}

/// A Drain under the lock marks its tablet as drained, for good.
pub fn marks_stay()
    ensures { OfEveryRun MarksStay }
{}
