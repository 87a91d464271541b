//! Tests of the terminal that fails as it is told.
#![tactic(auto)]

#[cfg(test)]
mod calls;
