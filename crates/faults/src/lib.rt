//! A terminal that fails as it is told, and keeps the bytes that have worked.
#![tactic(auto)]

pub mod fault;
pub mod faulty;
