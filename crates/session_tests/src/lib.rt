//! Tests of what no script says: sizes that a check refuses, sessions on terminals that the check did not mean, and what a run tells.
//! What sessions draw and refuse is compared by the program `replay`.
#![tactic(auto)]

#[cfg(test)]
mod sizes;
#[cfg(test)]
mod stage;
#[cfg(test)]
mod strangers;
