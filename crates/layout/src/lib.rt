#![tactic(auto)]

pub mod cells;
pub mod fault;
mod pack;
pub mod read;
mod unpack;
pub mod write;
