//! What a file's bootstrap says: its words in either form, their ranges, and whether the file may be looked at or changed as far as they tell.
#![tactic(auto)]

pub mod change;
pub mod judge;
pub mod ranges;
pub mod words;
