#![tactic(auto)]

pub mod making;
pub mod raw;
pub mod report;
