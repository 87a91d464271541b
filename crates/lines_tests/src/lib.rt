//! Tests of the texts of a session. What is expected follows from the rules.
#![tactic(auto)]

#[cfg(test)]
mod buffers;
#[cfg(test)]
mod notes;
#[cfg(test)]
mod prompts;
