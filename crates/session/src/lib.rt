//! A captioner's session: what it is created from, and its acts.
#![tactic(auto)]

pub mod session;
pub mod setup;
pub mod standing;
pub mod tables;
