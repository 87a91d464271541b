//! Act scripts: how a terminal is set up, and what is done on it.
#![tactic(auto)]

pub mod act;
pub mod error;
pub mod escape;
pub mod fields;
pub mod number;
pub mod reading;
pub mod settings;
