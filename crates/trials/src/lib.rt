#![tactic(auto)]

// Tests of the crates below, in one place, so that those are proved once.
#[cfg(test)]
mod logs;
#[cfg(test)]
mod made;
#[cfg(test)]
mod raws;
#[cfg(test)]
mod sinking;
#[cfg(test)]
mod tables;
pub mod telling;
#[cfg(test)]
mod texting;
