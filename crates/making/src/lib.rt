//! What policies are built of: places of which the building walk makes the pages.
#![tactic(auto)]

pub mod calls;
pub mod first_steps;
pub mod levels;
pub mod negated;
pub mod operator;
pub mod pairs;
pub mod projected;
pub mod sourced;
