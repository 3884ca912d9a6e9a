#![tactic(auto)]

pub mod governing;
pub mod pipe;
pub mod pipes;
pub mod report;
pub mod row;
pub mod sets;
pub mod step;
pub mod table;
pub mod tables;
pub mod theorems;
pub mod valve;
