//! Pages, their branching parts and sizes: what policies decide, with no diagram.
#![tactic(auto)]

pub mod laws;
