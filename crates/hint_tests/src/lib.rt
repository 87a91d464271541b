//! Tests of the hinters. What is expected follows from the rules.
#![tactic(auto)]

#[cfg(test)]
mod script;
