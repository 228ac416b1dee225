ghost use Rattle.std.specs.Prelude.{◌≡◌, ◌<◌, ◌≤◌, ◌∷◌, ◌++◌, length, OnOk, OnErr, IfSome};
ghost use Rattle.std.specs.Prelude.{Some, None, not, position, if◌then◌else◌};
ghost use Rattle.std.specs.List.{list_all};
ghost use Rattle.std.specs.Char.{is_ascii_digit};
ghost use Rattle.shard_names.specs.Alias.{number_of, alias_reading, alias_text, last_dash, uid_of, cell_fault, is_cell_byte, digit, ten_digits};

use shard_base::{OutOfMemory, Text, append_pieces};
use thiserror::Error;

/// The name of a cell: 1 to 32 letters, digits, `_`, `.` or `-` of ASCII.
pub type Cell = Text<32>;

/// A tablet's name: its cell and a number in it. Aliases are in order of their cells' bytes and then of their numbers.
#[derive(Clone, Copy, Debug, PartialEq, Eq, PartialOrd, Ord)]
pub struct Alias {
    pub cell: Cell,
    pub uid: u32,
}

/// Why a text is no alias.
#[derive(Clone, Copy, Debug, PartialEq, Eq, Error)]
pub enum NameFault {
    /// There is no dash.
    #[error("an alias has a dash")]
    NoDash,
    /// What stands behind the last dash is no number of 32 bits in 1 to 10 digits. `at` is the place of its first byte.
    #[error("no number of a tablet at byte {at}")]
    BadUid { at: u64 },
    /// The number is good and the cell is not. `at` is the place of the first byte that no cell has, or 0 for a cell that is
    /// empty or too long and has no such byte.
    #[error("no cell at byte {at}")]
    BadCell { at: u64 },
}

#[tactic(auto, unfolding(crate::specs::Alias::is_cell_byte))]
fn is_cell_byte(byte: u8) -> bool
    ensures { result ≡ is_cell_byte byte }
{
    matches!(byte, b'0'..=b'9' | b'A'..=b'Z' | b'a'..=b'z' | b'_' | b'.' | b'-')
}

/// The place of the last dash.
#[tactic(auto, using(crate::proofs::AliasLemmas::last_dash_more))]
fn find_last_dash(text: &[u8]) -> Option<usize>
    ensures value { result ≡ last_dash text.now }
    ensures within { IfSome result (λ k. k < length text.now) }
{
    let mut found = None;
    for (i, byte) in text.iter().enumerate() {
        if *byte == b'-' {
            found = Some(i);
        }
    }
    found
}

/// The number that digits stand for, at most ten of them.
fn digits_number(text: &[u8]) -> Option<u64>
    requires { length text.now ≤ 10 }
    ensures { result ≡ (if list_all is_ascii_digit text.now then Some (number_of text.now) else None) }
{
    let mut value = 0u64;
    for byte in text {
        if !byte.is_ascii_digit() {
            return None;
        }
        value = value * 10 + (*byte - b'0') as u64;
    }
    Some(value)
}

/// The number that one to ten digits stand for, if it has 32 bits.
fn read_uid(text: &[u8]) -> Option<u32>
    ensures { result ≡ uid_of text.now }
{
    if text.is_empty() || text.len() > 10 {
        return None;
    }
    match digits_number(text) {
        Some(value) if value <= u32::MAX as u64 => Some(value as u32),
        _ => None,
    }
}

fn find_odd_byte(cell: &[u8]) -> Option<usize>
    ensures { result ≡ position (λ b. not (is_cell_byte b)) cell.now }
{
    cell.iter().position(|byte| !is_cell_byte(*byte))
}

/// The first byte that no cell has, or 0 for a text of the wrong length.
fn find_cell_fault(cell: &[u8]) -> Option<usize>
    ensures { result ≡ cell_fault cell.now }
{
    if let Some(at) = find_odd_byte(cell) {
        return Some(at);
    }
    if cell.is_empty() || cell.len() > 32 {
        return Some(0);
    }
    None
}

fn digit(value: u32, unit: u32) -> u8
    requires { 0 < unit }
    ensures { result ≡ digit value unit }
{
    b'0' + (value / unit % 10) as u8
}

/// The number in ten digits, behind a dash.
fn dash_and_digits(uid: u32) -> [u8; 11]
    ensures { result ≡ 45 ∷ ten_digits uid }
{
    [
        b'-',
        digit(uid, 1000000000),
        digit(uid, 100000000),
        digit(uid, 10000000),
        digit(uid, 1000000),
        digit(uid, 100000),
        digit(uid, 10000),
        digit(uid, 1000),
        digit(uid, 100),
        digit(uid, 10),
        digit(uid, 1),
    ]
}

impl Alias {
    /// The alias that a text spells: the cell, the last dash, and the number. It takes no memory.
    pub fn read(text: &[u8]) -> Result<Alias, NameFault>
        ensures { result ≡ alias_reading text.now }
    {
        let Some(dash) = find_last_dash(text) else {
            return Err(NameFault::NoDash);
        };
        let Some(uid) = read_uid(&text[dash + 1..]) else {
            return Err(NameFault::BadUid {
                at: dash as u64 + 1,
            });
        };
        let name = &text[..dash];
        if let Some(at) = find_cell_fault(name) {
            return Err(NameFault::BadCell { at: at as u64 });
        }
        match Text::from_slice(name) {
            Some(cell) => Ok(Alias { cell, uid }),
            None => Err(NameFault::BadCell { at: 0 }),
        }
    }

    /// Appends the cell, a dash and the number in ten digits. Want of memory leaves the text as it was.
    pub fn write(&self, into: &mut Vec<u8>) -> Result<(), OutOfMemory>
        ensures ok { OnOk result (into.new.items ≡ into.old.items ++ alias_text self.now) }
        ensures err { OnErr result (into.new.items ≡ into.old.items) }
    {
        append_pieces(into, &[self.cell.as_slice(), &dash_and_digits(self.uid)])
    }
}
