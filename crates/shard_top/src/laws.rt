ghost use Rattle.shard_top.specs.Laws.{OneRun, RunsPlainly, PlaysToStop, PlayedIsRun, NotesInPlace};

/// With given wants of memory a script plays one run, to one stop.
pub fn one_run()
    ensures { OneRun }
{}

/// Where no command was refused for want of memory, what is played to the end is the run that wants none.
pub fn runs_plainly()
    ensures { RunsPlainly }
{}

/// What is played with some wants of memory goes on to a stop.
pub fn plays_to_stop()
    ensures { PlaysToStop }
{}

/// What is played is a run of the machine, in which each command keeps to its course, or leaves for want of memory.
pub fn played_is_run()
    ensures { PlayedIsRun }
{}

/// The notes of what is played stand in the order of their places, and none behind the last step.
pub fn notes_in_place()
    ensures { NotesInPlace }
{}
