//! Highlighters: they answer styled texts that show the given text.
#![tactic(auto)]

mod answer;
pub mod brackets;
pub mod highlight;
pub mod matching;
pub mod plain;
