//! The reparents inside a `vtorc`.

ghost use Rattle.std.specs.Prelude.{◌≡◌};
ghost use Rattle.shard_calls.specs.Causes.{plain, forced};

use shard_base::Items;
use shard_calls::{EmergencyOptions, PlannedOptions};
use std::alloc::Global;

/// How long a call of a reparent without options may take: 15 seconds, in milliseconds.
const USUAL_TIMEOUT: u64 = 15_000;

/// A `PlannedReparentShard` without options.
pub fn plain() -> PlannedOptions
    ensures { result ≡ plain }
{
    PlannedOptions {
        new_primary: None,
        avoid: None,
        expected: None,
        timeout: USUAL_TIMEOUT,
        allow_cross_cell: false,
    }
}

/// An `EmergencyReparentShard` without options. It takes no memory.
pub fn forced(alloc: Global) -> EmergencyOptions
    ensures { result ≡ forced }
{
    EmergencyOptions {
        new_primary: None,
        ignored: Items::new(alloc),
        expected: None,
        timeout: USUAL_TIMEOUT,
        prevent_cross_cell: false,
    }
}
