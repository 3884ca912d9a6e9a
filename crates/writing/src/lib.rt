#![tactic(auto)]

pub mod fields;
pub mod page;
pub mod sheet_lines;
#[cfg(test)]
mod tests;
