#![tactic(auto)]

pub mod outcome;
