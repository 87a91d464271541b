//! Pages: what a captioner's screen shows, and how it follows from the acts of a session.
#![tactic(auto)]

pub mod outcome;
