#![tactic(auto)]

pub mod channel;
pub mod conditions;
pub mod fault;
pub mod job;
