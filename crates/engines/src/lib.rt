#![tactic(auto)]

pub mod admission;
pub mod calls;
pub mod cold;
pub mod keeper;
pub mod keeping;
pub mod settle;
pub mod settled;
pub mod theorems;
pub mod warm;
