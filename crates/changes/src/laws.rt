//! What every row keeps. The functions do nothing: each one's contract is a law.

ghost use Rattle.changes.specs.Laws.{KeepsFew, StaysFew, BeginsFew, KeepsSound, BeginsSound, KeepsFit, KeepsGroup, ReadsNoPast};

/// Numbers begin at 0, and grow by at most one a step.
pub fn numbers_stay_few()
    ensures first { BeginsFew }
    ensures step { KeepsFew }
    ensures more { StaysFew }
{}

/// Each message can be taken by its receiver.
pub fn messages_stay_sound()
    ensures first { BeginsSound }
    ensures step { KeepsSound }
{}

/// The post and the managers go on fitting each other, and each manager knows the shard as it is kept.
pub fn fields_go_on_fitting()
    ensures { KeepsFit }
{}

/// The tablets of the shard and its durability policy never change.
pub fn group_stays()
    ensures { KeepsGroup }
{}

/// No row looks at what is past.
pub fn no_row_reads_past()
    ensures { ReadsNoPast }
{}
