//! What a job writes: a data record, record 1, the slot's entry, a lowered U, zeros over an old record; and the comparison of an entry with what stands there.
#![tactic(auto)]

pub mod boot;
pub mod count;
pub mod entry;
pub mod write;
