//! What is wrong with the words of a script's line, one by one. Of several faults the first in a fixed order is answered.
#![tactic(auto)]

mod command;
mod fault;
mod line;
mod options;
mod slot;

pub use fault::{Fault, earlier, unless};
pub use line::line_fault;

#[cfg(test)]
mod tests;
