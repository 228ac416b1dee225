//! The program's words.

ghost use Rattle.std.specs.Prelude.{◌≡◌, IfOk, IsUtf8, codes};

use std::alloc::{AllocError, Global};
use std::env::{Env, FillError};
use std::str;

/// Why a word was not read.
#[derive(Clone, Copy)]
enum WordFault {
    /// There are no more words.
    NotThere,
    /// It needs more room.
    TooLong,
    OutOfMemory,
}

/// The bytes of a word, where they need no more room than this.
fn read_within(
    env: &impl Env,
    alloc: Global,
    number: usize,
    room: usize,
) -> Result<Vec<u8>, WordFault> {
    let mut bytes = Vec::new(alloc);
    if bytes.resize(room, 0u8).is_err() {
        return Err(WordFault::OutOfMemory);
    }
    match env.arg(number, bytes.as_mut_slice()) {
        Ok(count) => {
            bytes.truncate(count);
            Ok(bytes)
        }
        Err(FillError::NotPresent) => Err(WordFault::NotThere),
        Err(FillError::TooLong) => Err(WordFault::TooLong),
    }
}

/// The bytes of a word, if there is one of this number.
fn read_word(env: &impl Env, alloc: Global, number: usize) -> Result<Option<Vec<u8>>, AllocError> {
    let mut room = 256;
    for _doubling in 0..usize::BITS {
        match read_within(env, alloc, number, room) {
            Ok(bytes) => return Ok(Some(bytes)),
            Err(WordFault::NotThere) => return Ok(None),
            Err(WordFault::OutOfMemory) => return Err(AllocError),
            Err(WordFault::TooLong) => room = room.saturating_add(room),
        }
    }
    Err(AllocError)
}

/// A word that is no UTF-8 is a question mark, which fits no reading.
fn as_text(alloc: Global, word: Vec<u8>) -> Result<Vec<u8>, AllocError>
    ensures text { IsUtf8 word.items → IfOk result (λ text. text.items ≡ word.items) }
    ensures mark { (IsUtf8 word.items → ⊥) → IfOk result (λ text. text.items ≡ codes "?") }
{
    match str::from_utf8(&word) {
        Ok(_) => Ok(word),
        Err(_) => Vec::from_slice(alloc, b"?"),
    }
}

/// The program's words, without its name.
pub(crate) fn read_words(env: &impl Env, alloc: Global) -> Result<Vec<Vec<u8>>, AllocError> {
    let mut words = Vec::new(alloc);
    for number in 1..usize::MAX {
        match read_word(env, alloc, number)? {
            Some(word) => words.push(as_text(alloc, word)?)?,
            None => return Ok(words),
        }
    }
    Ok(words)
}
