#![tactic(auto)]

pub mod kind;
pub mod place;
pub mod wafer;
