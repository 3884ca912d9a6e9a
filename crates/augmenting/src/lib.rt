#![tactic(auto)]

pub mod augmenter;
pub mod fill;
pub mod greatest_flow;
pub mod lead;
pub mod led;
pub mod lower;
pub mod push;
pub mod rows;
pub mod survey;
mod walk;
