//! A session for a driver in another language, which counts what acts cost.
#![tactic(auto)]

pub mod deed;
pub mod play;
