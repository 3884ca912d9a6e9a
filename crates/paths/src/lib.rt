#![tactic(auto)]

pub mod fewest;
pub mod label;
pub mod metric;
pub mod residual;
pub mod search;
#[cfg(test)]
mod tests;
pub mod widest;
