#![tactic(auto)]

mod lines;
mod refusal;
pub mod reply;
