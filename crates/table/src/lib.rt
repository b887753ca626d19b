#![tactic(auto)]

pub mod key;
pub mod row;
pub mod rows;
