//! Vocabularies: attributes with named values or rising cuts, their cells, shape and grid numbers.
#![tactic(auto)]

mod attributes;
pub mod laws;
mod names;
mod parts;
mod reader;
pub mod record;
