#![tactic(auto)]

pub mod command;
pub mod draft;
pub mod mistake;
mod parts;
