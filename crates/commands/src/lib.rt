#![tactic(auto)]

pub mod command;
pub mod hex;
mod numbers;
pub mod parse;
mod tails;
mod words;
