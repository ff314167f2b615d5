#![tactic(auto)]

pub mod board;
pub mod call;
pub mod condition;
pub mod laws;
pub mod lends;
pub mod lent;
pub mod pair;
pub mod play;
mod refuse;
pub mod vector;
pub mod verdict;
