//! What document 01 says: the types, and the few functions that it asks of them. The definitions stand in specs/, a module a section.
#![tactic(auto)]

pub mod entry;
pub mod job;
pub mod link;
pub mod refusal;
pub mod sizes;
