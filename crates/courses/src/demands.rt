//! What a command is to do next, by how far its course comes.

ghost use Rattle.std.specs.Prelude.{◌≡◌, false, IfOk, None};
ghost use Rattle.shard_calls.specs.declared.ending.CommandAnswer.TheVariants as endings;
ghost use Rattle.courses.specs.declared.demands.Demand.TheVariants.{Leaves};
ghost use Rattle.courses.specs.Walks.{is_starved};
ghost use Rattle.courses.specs.Course.{demand_by};

use crate::{Exit, Want};
use shard_base::OutOfMemory;
use shard_calls::{CommandAnswer, Refusal};

/// What a command is to do.
#[derive(Drop)]
pub enum Demand {
    /// This.
    Does { want: Want },
    /// It waits for calls, and may give up any of them.
    Awaits,
    /// It frees the lock, if it took it, and ends.
    Leaves { answer: CommandAnswer },
}

fn refused(refusal: Refusal) -> Demand
    ensures { result ≡ Leaves (endings.Refused refusal None) }
{
    let answer = CommandAnswer::Refused {
        refusal,
        undone: None,
    };
    Demand::Leaves { answer }
}

/// By how far its course came, what a command is to do. What is none of its course makes it leave, as want of memory does.
pub fn demand_by(came: Result<CommandAnswer, Exit>) -> Result<Demand, OutOfMemory>
    ensures { IfOk result (λ d. (is_starved came ≡ false) × (d ≡ demand_by came)) }
{
    match came {
        Ok(answer) => Ok(Demand::Leaves { answer }),
        Err(Exit::Does { want }) => Ok(Demand::Does { want }),
        Err(Exit::Waits) => Ok(Demand::Awaits),
        Err(Exit::Refused { refusal }) => Ok(refused(refusal)),
        Err(Exit::Strays) => Ok(refused(Refusal::OutOfMemory)),
        Err(Exit::OutOfMemory) => Err(OutOfMemory),
    }
}
