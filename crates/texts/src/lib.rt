#![tactic(auto)]

pub mod extent;
pub mod laws;
pub mod text;
