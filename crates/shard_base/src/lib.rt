//! What every crate stands on: want of memory, lists and short texts that contracts see as lists, and the words of the
//! definitions above.
#![tactic(auto)]

mod items;
mod memory;
mod pieces;
mod text;

pub use items::Items;
pub use memory::OutOfMemory;
pub use pieces::append_pieces;
pub use text::Text;
