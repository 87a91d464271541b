//! Judgements of what an act brings, before anything is altered: its text, its length, its position and its height.
#![tactic(auto)]

pub mod hints;
pub mod judging;
