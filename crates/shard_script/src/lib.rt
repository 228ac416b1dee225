//! The language of shard scripts: how a text is read, and what its grammar says.
#![tactic(auto)]

mod fault;
#[cfg(test)]
mod fault_tests;
mod generator;
#[cfg(test)]
mod generator_tests;
mod law;
mod line;
mod script;
#[cfg(test)]
mod tests;

pub use generator::generate;
pub use law::{faults_as_spelled, front_decides, front_decides_fault, reads_as_spelled};
pub use line::Line;
pub use script::{Action, Script, ScriptFault, read_text};
