#![tactic(auto)]

pub mod theorems;
