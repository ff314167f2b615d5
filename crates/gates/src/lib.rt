#![tactic(auto)]

pub mod fault;
pub mod gates;
mod order;
pub mod side;
