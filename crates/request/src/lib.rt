//! Requests: reading one, and writing one for given cells.
#![tactic(auto)]

mod given;
pub mod laws;
pub mod reading;
pub mod writing;
