//! What holds of worlds that moves lead to, under every durability policy. The functions do nothing: each one's contract is a law.

ghost use Rattle.durability.specs.Policies.{rules_of};
ghost use Rattle.std.specs.Prelude.{List};
ghost use Rattle.shard_calls.specs.Promotions.{HoldsTold, world_at};
ghost use Rattle.shard_calls.specs.RunLaws.{OfEveryShard};
ghost use Rattle.shard_calls.specs.Table.{IsRun, Met, after};
ghost use Rattle.shard_laws.specs.Examples.{GroundsAreWorked};
ghost use Rattle.shard_laws.specs.Grounded.{PromotesOnGrounds};
ghost use Rattle.shard_laws.specs.Safe.{IsSafe};
ghost use Rattle.shard_laws.specs.TightMoves.{SitesAreShown, WorldMove};
ghost use Rattle.shard_laws.specs.Traces.{AcksSayTruth, EmergencyIsRevoked, IsTrace, LeaderIsComplete, OfEveryTrace, RowsAreClosed, ToldIsVoted, VotesAreAnswered};
ghost use Rattle.shard_calls.specs.World.{Config, World};
ghost use Rattle.shard_calls.specs.declared.event.Event.{Event};
ghost use Rattle.shard_calls.specs.declared.event.Step.{Step};

/// Each row of the step table is a move; so each run is a trace of moves.
pub fn rows_are_moves()
    ensures row { (config : Config) (w : World) (e : Event) → Met config w e → WorldMove (rules_of config.policy) config w (after config w e) }
    ensures run { (config : Config) (steps : List Step) → IsRun config steps → IsTrace (rules_of config.policy) config (world_at config steps) }
{}

/// What stands before a row, in any log, has all that its tablet had when it was promoted; and who acknowledges an index has so many entries.
pub fn log_closed()
    ensures rows { OfEveryTrace RowsAreClosed }
    ensures acks { OfEveryTrace AcksSayTruth }
{}

/// A Stopped and a Demoted of a term have all that the tablet had while its promise was below the term, which it promises from then on.
pub fn votes_answered()
    ensures { OfEveryTrace VotesAreAnswered }
{}

/// What is told was voted for by a set that the policy accepts.
pub fn told_is_voted()
    ensures { OfEveryTrace ToldIsVoted }
{}

/// Where a set of tablets stopped is the evidence, every older primary is revoked for good.
pub fn emergency_revokes()
    ensures { OfEveryTrace EmergencyIsRevoked }
{}

/// Who asks for a promotion has its grounds; in an emergency every older primary is then revoked, unless there was none.
pub fn promotes_on_grounds()
    ensures { OfEveryShard PromotesOnGrounds }
{}

/// A promoted tablet has, before the row of its term, every entry that is ever told in an earlier term.
pub fn leader_complete()
    ensures moves { OfEveryTrace LeaderIsComplete }
    ensures runs { OfEveryShard HoldsTold }
{}

/// Tablets whose writes may break off when they go down move as tablets whose writes do not.
pub fn sites_are_shown()
    ensures { SitesAreShown }
{}

/// All that holds of every history, gathered.
pub fn every_history_is_safe()
    ensures { OfEveryShard IsSafe }
{}

/// Worked histories in which a second promotion has its grounds, planned and in an emergency, and others in which it has not.
pub fn worked_grounds()
    ensures { GroundsAreWorked }
{}
