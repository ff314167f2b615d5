#![tactic(auto)]

mod events;
pub mod fault;
mod fields;
pub mod job;
mod rows;
