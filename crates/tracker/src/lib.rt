#![tactic(auto)]

pub mod service;
pub mod tracker;
mod writing;
