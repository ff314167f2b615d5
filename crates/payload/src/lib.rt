#![tactic(auto)]

pub mod kinds;
pub mod mark;
pub mod wish;
