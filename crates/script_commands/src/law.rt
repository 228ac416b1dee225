ghost use Rattle.script_commands.specs.Grammar.{CommandsAsSpelled};

/// Words are read as a command exactly where the grammar has them as that one.
pub fn commands_as_spelled()
    ensures { CommandsAsSpelled }
{}
