ghost use Rattle.std.specs.Prelude.{◌≡◌, map, IfOk};
ghost use Rattle.script_commands.specs.Options.{parts_of};

use shard_base::OutOfMemory;
use std::alloc::{AllocError, Global};

fn collect_parts(alloc: Global, bytes: &[u8], separator: u8) -> Result<Vec<&[u8]>, AllocError>
    ensures { IfOk result (λ parts. map (λ p. p.now) parts.items ≡ parts_of separator bytes.now) }
{
    bytes.split(|b| *b == separator).collect(alloc)
}

/// The parts between separators.
pub fn parts_of(alloc: Global, bytes: &[u8], separator: u8) -> Result<Vec<&[u8]>, OutOfMemory>
    ensures { IfOk result (λ parts. map (λ p. p.now) parts.items ≡ parts_of separator bytes.now) }
{
    Ok(collect_parts(alloc, bytes, separator)?)
}
