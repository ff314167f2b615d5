#![tactic(auto)]

pub mod clock;
pub mod event;
pub mod trace;
