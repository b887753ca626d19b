#![tactic(auto)]

pub mod records;
pub mod sink;
