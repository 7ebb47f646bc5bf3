//! Tests of the library on sound and on damaged input.
#![tactic(auto)]

#[cfg(test)]
mod algebras;
#[cfg(test)]
mod bytes;
#[cfg(test)]
mod decided;
#[cfg(test)]
mod grid_lists;
#[cfg(test)]
mod grids;
#[cfg(test)]
mod lists;
#[cfg(test)]
mod located;
#[cfg(test)]
mod policies;
#[cfg(test)]
mod policy_bytes;
#[cfg(test)]
mod policy_models;
#[cfg(test)]
mod refusals;
#[cfg(test)]
mod rows;
#[cfg(test)]
mod sheets;
#[cfg(test)]
mod stacks;
#[cfg(test)]
mod written;
