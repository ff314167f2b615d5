#![tactic(auto)]

pub mod placings;
#[cfg(test)]
mod tests;
pub mod traces;
