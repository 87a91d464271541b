//! Hinters: they answer a text that could follow the line.
#![tactic(auto)]

pub mod hint;
pub mod script;
