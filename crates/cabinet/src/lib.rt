#![tactic(auto)]

pub mod cabinet;
pub mod refusal;
