#![tactic(auto)]

pub mod engine;
