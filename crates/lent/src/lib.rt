//! What can be done with lent bytes: read a number, set bytes, compare, hand out a part.
#![tactic(auto)]

pub mod compare;
pub mod part;
pub mod read;
pub mod write;
