#![tactic(auto)]

pub mod fields;
pub mod header;
mod kind;
pub mod letters;
pub mod lines;
pub mod reader;
pub mod refusal;
pub mod refusals;
pub mod schedule;
pub mod setting;
pub mod sheet;
pub mod steps;
