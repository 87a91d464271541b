//! How many columns characters and clusters take.
#![tactic(auto)]

pub mod clusters;
pub mod ranges;
pub mod tables;
