#![tactic(auto)]

pub mod change;
pub mod exit;
pub mod leg;
pub mod standing;
pub mod states;
