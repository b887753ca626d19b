#![tactic(auto)]

pub mod entry;
pub mod history;
pub mod place;
pub mod telling;
pub mod wafer;
