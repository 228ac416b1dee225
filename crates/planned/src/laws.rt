//! What holds of what commands do next. The functions do nothing: each one's contract is a law.

ghost use Rattle.planned.specs.Laws.{OfEveryWorld, AllWaitInTime, MayIsMet, NextIsMet, LeavingIsMet, LeavingIsQuiet, NoneBlocks};
ghost use Rattle.planned.specs.Follows.{MayIsOwn, LeavingIsOwn, CourseIsMet, NextKeeps, LeavingKeeps, OthersKeep};
ghost use Rattle.shard_core.specs.Pending.{ActorsFitAlways};

/// In every history, what a command may do next meets its row's condition.
pub fn next_is_met()
    ensures any { OfEveryWorld MayIsMet }
    ensures first { OfEveryWorld NextIsMet }
{}

/// So does that by which an open command leaves.
pub fn leaving_is_met()
    ensures { LeavingIsMet }
{}

/// How a command leaves, with whatever answer, changes no tablet and sends nothing: what it did before it was refused stays as it is.
pub fn leaving_is_quiet()
    ensures { LeavingIsQuiet }
{}

/// In every history, an open command that may do nothing waits for a call of its own, or to be told of what it wrote.
pub fn none_blocks()
    ensures { OfEveryWorld NoneBlocks }
{}

/// In every history, the pending command of an actor is open, an open command is its actor's pending one, and an actor whose
/// last command has ended may give another.
pub fn actors_fit()
    ensures { ActorsFitAlways }
{}

/// What a command may do are events that it makes itself, and so is that by which it leaves.
pub fn courses_are_own()
    ensures may { MayIsOwn }
    ensures leaving { LeavingIsOwn }
{}

/// In every history, each event of a command's course meets its row's condition.
pub fn course_is_met()
    ensures { OfEveryWorld CourseIsMet }
{}

/// Commands that do what they do next, or leave for want of memory, keep to their courses, whatever happens between.
pub fn commands_keep_to_courses()
    ensures next { NextKeeps }
    ensures leaving { LeavingKeeps }
    ensures others { OthersKeep }
{}

/// In every history, what an open command waits for now it waits for until a moment before the year 10000.
pub fn waits_end_in_time()
    ensures { OfEveryWorld AllWaitInTime }
{}
