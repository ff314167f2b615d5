#![tactic(auto)]

pub mod earliest;
pub mod lines;
pub mod write;
