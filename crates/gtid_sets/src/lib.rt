//! Transactions, the entries of a tablet's log, and sets of transactions.
#![tactic(auto)]

mod entry;
mod gtid;
mod gtid_set;
mod held;
mod interval;
mod intervals;
pub mod laws;
mod reading;
mod set_text;
#[cfg(test)]
mod tests;

pub use entry::{Entry, Kind};
pub use gtid::Gtid;
pub use gtid_set::{GtidSet, covers, equal, minus, union};
pub use held::Held;
pub use interval::Interval;
pub use reading::{ReadFault, SetFault, read_position, read_set};
pub use set_text::{write_position, write_set};
