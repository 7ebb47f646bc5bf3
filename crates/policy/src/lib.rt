//! Policies that come from outside.
#![tactic(auto)]

pub mod counting;
pub mod grid;
pub mod laws;
pub mod policy_sheet;
pub mod sheets;
pub mod source;
mod tally;
mod walk;
pub mod walking;
