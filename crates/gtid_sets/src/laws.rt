//! What positions promise as finite sets. The functions do nothing: each one's contract is a law.

ghost use Rattle.gtid_sets.specs.Intervals.{OneListEach};
ghost use Rattle.gtid_sets.specs.ReadingLaws.{SetReadsBack, PositionReadsBack};
ghost use Rattle.gtid_sets.specs.PositionLaws.{NothingHasNone, WithGtidHas, OfGtidsHas, UnionHas, MinusHas, TestIsEquality, SameMembersAreOne, CountWithGtid, CoversIsInclusion, CoversIsAnOrder, MinusOfCovered, GreatestIsThere, NoneIsGreater};

/// The empty set has no member.
pub fn nothing_has_none()
    ensures { NothingHasNone }
{}

/// A set with one transaction more has that one and its own.
pub fn with_gtid_has()
    ensures { WithGtidHas }
{}

/// The set of a list has what the list has.
pub fn of_gtids_has()
    ensures { OfGtidsHas }
{}

/// A union has what either set has.
pub fn union_has()
    ensures { UnionHas }
{}

/// A difference has what the first set has and the second has not.
pub fn minus_has()
    ensures { MinusHas }
{}

/// The test on two transactions decides whether they are one.
pub fn test_is_equality()
    ensures { TestIsEquality }
{}

/// Sets with the same members are one.
pub fn same_members_are_one()
    ensures { SameMembersAreOne }
{}

/// Each member is counted once.
pub fn count_with_gtid()
    ensures { CountWithGtid }
{}

/// A set covers another exactly where it has all of its members.
pub fn covers_is_inclusion()
    ensures { CoversIsInclusion }
{}

/// To cover is a partial order.
pub fn covers_is_an_order()
    ensures { CoversIsAnOrder }
{}

/// A difference is empty exactly where the second set covers the first.
pub fn minus_of_covered()
    ensures { MinusOfCovered }
{}

/// The greatest number of a server is that of a member, or 0.
pub fn greatest_is_there()
    ensures { GreatestIsThere }
{}

/// No member of a server has a number above the greatest.
pub fn none_is_greater()
    ensures { NoneIsGreater }
{}

/// Each set has one list of intervals in order.
pub fn one_list_each()
    ensures { OneListEach }
{}

/// The text that is written of a set is read as that set.
pub fn set_reads_back()
    ensures { SetReadsBack }
{}

/// The text that is written of a position is read as that position.
pub fn position_reads_back()
    ensures { PositionReadsBack }
{}
