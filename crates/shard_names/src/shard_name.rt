ghost use Rattle.std.specs.Prelude.{◌≡◌, ◌<◌, ◌++◌, length, IfSome, OnOk, OnErr};
ghost use Rattle.std.specs.List.{list_all};
ghost use Rattle.shard_names.specs.ShardName.{shard_name_reading, shard_name_text, label_reading, slash_place, is_label_byte};

use shard_base::{OutOfMemory, Text, append_pieces};

/// A keyspace, or a shard in it: 1 to 64 letters, digits, `_` or `-` of ASCII.
pub type Label = Text<64>;

/// The name of a shard: its keyspace and its own label.
#[derive(Clone, Copy, Debug, PartialEq, Eq)]
pub struct ShardName {
    pub keyspace: Label,
    pub shard: Label,
}

#[tactic(auto, unfolding(crate::specs::ShardName::is_label_byte))]
fn is_label_byte(byte: u8) -> bool
    ensures { result ≡ is_label_byte byte }
{
    matches!(byte, b'0'..=b'9' | b'A'..=b'Z' | b'a'..=b'z' | b'_' | b'-')
}

fn all_label_bytes(text: &[u8]) -> bool
    ensures { result ≡ list_all is_label_byte text.now }
{
    text.iter().all(|byte| is_label_byte(*byte))
}

#[tactic(auto, unfolding(crate::specs::ShardName::label_reading))]
fn read_label(text: &[u8]) -> Option<Label>
    ensures { result ≡ label_reading text.now }
{
    if text.is_empty() || !all_label_bytes(text) {
        return None;
    }
    Text::from_slice(text)
}

fn find_slash(text: &[u8]) -> Option<usize>
    ensures value { result ≡ slash_place text.now }
    ensures within { IfSome result (λ k. k < length text.now) }
{
    text.iter().position(|byte| *byte == b'/')
}

impl ShardName {
    /// The name that a text spells: a keyspace, a slash and a shard. It takes no memory.
    #[tactic(auto, unfolding(crate::specs::ShardName::shard_name_reading))]
    pub fn read(text: &[u8]) -> Option<ShardName>
        ensures { result ≡ shard_name_reading text.now }
    {
        let slash = find_slash(text)?;
        let keyspace = read_label(&text[..slash])?;
        let shard = read_label(&text[slash + 1..])?;
        Some(ShardName { keyspace, shard })
    }

    /// Appends the keyspace, a slash and the shard. Want of memory leaves the text as it was.
    pub fn write(&self, into: &mut Vec<u8>) -> Result<(), OutOfMemory>
        ensures ok { OnOk result (into.new.items ≡ into.old.items ++ shard_name_text self.now) }
        ensures err { OnErr result (into.new.items ≡ into.old.items) }
    {
        append_pieces(
            into,
            &[self.keyspace.as_slice(), b"/", self.shard.as_slice()],
        )
    }
}
