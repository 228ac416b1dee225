//! What the lines of a history are. The functions do nothing: each one's contract is a law.

ghost use Rattle.history_text.specs.Laws.{StepIsOneLine, PiecesAreTheWhole};
ghost use Rattle.history_text.specs.Names.{AliasesReadBack, ShardsReadBack, AliasesDiffer, ShardsDiffer};
ghost use Rattle.history_text.specs.Told.{LineTellsEvent, LineTellsReply};

/// The line of a step holds no newline, where no name in it does.
pub fn step_is_one_line()
    ensures { StepIsOneLine }
{}

/// What stands before the steps, and the line of each step behind it, are together what the script declares and its history.
pub fn pieces_are_the_whole()
    ensures { PiecesAreTheWhole }
{}

/// The line of a step tells which event it was, all but the answer with which a command ends, where names, numbers, sets and moments are
/// within their bounds.
pub fn line_tells_event()
    ensures { LineTellsEvent }
{}

/// And it tells the reply, where the event ends no command.
pub fn line_tells_reply()
    ensures { LineTellsReply }
{}

/// Aliases and shards' names, as they stand in a line, are read back: `Alias::read` and `ShardName::read` give what was written. So two names
/// have two texts.
pub fn names_read_back()
    ensures aliases { AliasesReadBack }
    ensures shards { ShardsReadBack }
    ensures aliases_differ { AliasesDiffer }
    ensures shards_differ { ShardsDiffer }
{}
