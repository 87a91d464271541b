//! Tests of the highlighters.
#![tactic(auto)]

#[cfg(test)]
mod brackets;
#[cfg(test)]
mod rules;
