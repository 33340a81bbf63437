//! What a file says of its scans: an entry's run, the row of runs, and the rules over them tried slot by slot.
#![tactic(auto)]

pub mod entry;
pub mod file;
pub mod plain;
pub mod row;
