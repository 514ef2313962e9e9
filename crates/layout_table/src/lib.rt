// The code that reads and writes the table's bytes.
#![tactic(auto)]

pub mod entry;
pub mod header;
pub mod priority;
