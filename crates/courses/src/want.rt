//! What a course comes to before its end.

use shard_base::OutOfMemory;
use shard_calls::{Call, Refusal};
use shard_names::Alias;

/// What a command is to do. In a call that is to be made, `until` is a timeout in milliseconds.
#[derive(Drop)]
pub enum Want {
    Take,
    Read,
    Intend { alias: Alias },
    Record { alias: Alias },
    Drain { alias: Alias },
    Ask { alias: Alias, call: Call },
    Write { alias: Alias },
    Tell,
}

/// Where a course stops before its end.
#[derive(Drop)]
pub enum Exit {
    /// This is to be done next.
    Does { want: Want },
    /// Calls are out.
    Waits,
    Refused { refusal: Refusal },
    /// What was done is none of this course.
    Strays,
    OutOfMemory,
}

impl From<OutOfMemory> for Exit {
    ghost use Rattle.std.specs.Prelude.{◌≡◌};
    ghost use Rattle.courses.specs.declared.want.Exit.TheVariants as exits;

    ghost from_gives = { λ want exit. exit ≡ exits.OutOfMemory };

    fn from(_want: OutOfMemory) -> Exit {
        Exit::OutOfMemory
    }
}
