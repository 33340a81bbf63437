//! The C face: what a host links. Each call hands on to a proved one and turns its answer into numbers, by a `match` for each kind of answer.
#![tactic(auto)]

pub mod face;
pub mod forms;
pub mod jobs;
pub mod kinds;
pub mod links;
pub mod looks;
pub mod whys;
