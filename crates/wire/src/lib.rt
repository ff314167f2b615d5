#![tactic(auto)]

pub mod frame;
pub mod reader;
pub mod record;
