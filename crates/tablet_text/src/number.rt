ghost use Rattle.std.specs.Prelude.{◌≡◌, ◌++◌, OnOk};
ghost use Rattle.std.specs.Fmt.{decimal};

use itoa::Buffer;
use shard_base::OutOfMemory;

/// Appends the decimal digits.
pub fn write_number(number: u64, into: &mut Vec<u8>) -> Result<(), OutOfMemory>
    ensures { OnOk result (into.new.items ≡ into.old.items ++ decimal number) }
{
    let mut buffer = Buffer::new();
    into.extend_from_slice(buffer.format(number).as_bytes())?;
    Ok(())
}
