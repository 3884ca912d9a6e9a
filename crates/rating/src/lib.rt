#![tactic(auto)]

pub mod page;
pub mod theorems;
