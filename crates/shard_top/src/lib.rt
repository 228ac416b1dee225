//! What the program does: it reads a script, plays it, and writes the answers.
#![tactic(auto)]

mod giving;
mod laws;
mod memory;
mod player;
mod playing;
mod sink;
mod source;
mod telling;
mod texts;
mod top;
mod words;

pub use laws::{notes_in_place, one_run, played_is_run, plays_to_stop, runs_plainly};
pub use memory::{MemorySink, MemorySource};
pub use sink::{Sink, put_all};
pub use source::{Failed, ReadFault, Source, read_all};
pub use top::{Outcome, step_words, vtshard_words};
