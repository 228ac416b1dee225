ghost use Rattle.std.specs.Prelude.{◌≡◌, ◌++◌, OnOk, OnErr};
ghost use Rattle.std.specs.List.{flat_map};

use crate::OutOfMemory;

/// Appends the pieces, one after another. Want of memory leaves the text as it was.
pub fn append_pieces(into: &mut Vec<u8>, pieces: &[&[u8]]) -> Result<(), OutOfMemory>
    ensures ok { OnOk result (into.new.items ≡ into.old.items ++ flat_map (λ piece. piece.now) pieces.now) }
    ensures err { OnErr result (into.new.items ≡ into.old.items) }
{
    let before = into.len();
    for piece in pieces {
        if into.extend_from_slice(piece).is_err() {
            into.truncate(before);
            return Err(OutOfMemory);
        }
    }
    Ok(())
}
