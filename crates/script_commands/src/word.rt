//! Single words: names of actors, policies, types of tablets, servers, and the ends of links.

ghost use Rattle.std.specs.Prelude.{◌≡◌};
ghost use Rattle.std.specs.List.{list_all};
ghost use Rattle.script_commands.specs.Words.{is_name_byte, begins_with_letter, is_taken, name_reading, server_reading, kind_reading, policy_reading, side_reading};

use durability::{Durability, read_policy};
use shard_base::Text;
use shard_calls::Side;
use shard_names::{Alias, Name, TabletType};
use uuid::Uuid;

fn is_name_byte(byte: u8) -> bool
    ensures { result ≡ is_name_byte byte }
{
    byte.is_ascii_lowercase() || byte.is_ascii_digit()
}

fn all_name_bytes(text: &[u8]) -> bool
    ensures { result ≡ list_all is_name_byte text.now }
{
    text.iter().all(|byte| is_name_byte(*byte))
}

fn begins_with_letter(text: &[u8]) -> bool
    ensures { result ≡ begins_with_letter text.now }
{
    text.first().is_some_and(|byte| byte.is_ascii_lowercase())
}

/// Whether a name is one of the two that no line starts.
fn is_taken(name: &[u8]) -> bool
    ensures { result ≡ is_taken name.now }
{
    name == b"main".as_slice() || name == b"control".as_slice()
}

/// A name that may be started: it begins with a lower-case letter, and goes on with lower-case letters and digits.
#[tactic(auto, unfolding(crate::specs::Words::name_reading))]
pub fn read_name(text: &[u8]) -> Option<Name>
    ensures { result ≡ name_reading text.now }
{
    if !begins_with_letter(text) || !all_name_bytes(text) || is_taken(text) {
        return None;
    }
    Text::from_slice(text)
}

/// The hyphenated form of a UUID in either case.
pub fn read_server(text: &[u8]) -> Option<Uuid>
    ensures { result ≡ server_reading text.now }
{
    if text.len() != 36 {
        return None;
    }
    Uuid::try_parse_ascii(text).ok()
}

/// The type of a tablet: `replica`, `rdonly` or `spare`.
pub fn read_kind(text: &[u8]) -> Option<TabletType>
    ensures { result ≡ kind_reading text.now }
{
    if text == b"replica".as_slice() {
        Some(TabletType::Replica)
    } else if text == b"rdonly".as_slice() {
        Some(TabletType::Rdonly)
    } else if text == b"spare".as_slice() {
        Some(TabletType::Spare)
    } else {
        None
    }
}

/// The policy of this name, one of the five of the Vitess manual.
pub fn policy_named(name: &[u8]) -> Option<Durability>
    ensures { result ≡ policy_reading name.now }
{
    read_policy(name).ok()
}

/// An end of a link: `control` or a tablet.
#[tactic(auto, unfolding(crate::specs::Words::side_reading))]
pub fn read_side(text: &[u8]) -> Option<Side>
    ensures { result ≡ side_reading text.now }
{
    if text == b"control".as_slice() {
        return Some(Side::Control);
    }
    let alias = Alias::read(text).ok()?;
    Some(Side::Tablet { alias })
}
