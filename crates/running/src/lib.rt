//! Runs of a captioner's session: create, and acts one after the other.
#![tactic(auto)]

pub mod act;
pub mod law;
mod performing;
pub mod run;
