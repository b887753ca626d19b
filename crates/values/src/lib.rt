#![tactic(auto)]

pub mod bounds;
pub mod code;
pub mod field;
pub mod report;
pub mod states;
pub mod time;
pub mod transition;
