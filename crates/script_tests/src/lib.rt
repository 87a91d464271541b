//! Tests of act scripts. What is expected follows from the rules (docs/ACTS.md); the oracle refuses the same lines in other words.
#![tactic(auto)]

#[cfg(test)]
mod scripts;
#[cfg(test)]
mod words;
#[cfg(test)]
mod wrongs;
