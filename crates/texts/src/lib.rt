#![tactic(auto)]

pub mod fault;
pub mod id;
pub mod text;
