ghost use Rattle.shard_script.specs.Grammar.{ReadsAsSpelled, FaultsAsSpelled};
ghost use Rattle.shard_script.specs.Faults.{FrontDecidesFault};
ghost use Rattle.shard_script.specs.Script.{FrontDecides};

/// A text is read exactly where the grammar of scripts spells one, and then as that one.
pub fn reads_as_spelled()
    ensures { ReadsAsSpelled }
{}

/// A text has its fault exactly on the first line with which its lines make no script.
pub fn faults_as_spelled()
    ensures { FaultsAsSpelled }
{}

/// The bytes that `read_all` takes decide how a text is read, also where more are left.
pub fn front_decides()
    ensures { FrontDecides }
{}

/// They decide also which fault a text has.
pub fn front_decides_fault()
    ensures { FrontDecidesFault }
{}
